// The replies of the calls on a table, as a theorem.
ghost use Rattle.tables.specs.Calls.{OneReply};

use sets::SetKind;

// Of each call the definitions allow one reply, and one list of rows after it.
pub fn replies<K: SetKind>()
    ensures { OneReply K.holds }
{}
