// What the past of two tables tells of their rows, as a theorem.
ghost use Rattle.tables.specs.Pasts.{PastsAreSound, CallsGoOn};

use sets::SetKind;

// `sound`: items below the count, each row can be held, no row contains another, at most capacity rows.
// `goes_on`: the rows after a put or a strike have a past again.
pub fn pasts<K: SetKind>()
    ensures sound { PastsAreSound K.holds }
    ensures goes_on { CallsGoOn K.holds }
{}
