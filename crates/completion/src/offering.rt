// Rows found by a completion, put into a table.
ghost use Rattle.std.specs.Prelude.{◌≡◌, ℕ, List, OnErr};
ghost use Rattle.sets.specs.Sets.{Numbers};
ghost use Rattle.systems.specs.States.{up};
ghost use Rattle.tables.specs.Refusals.{table_reply};
ghost use Rattle.tables.specs.Tables.{Holds, Kept, Unchanged};
ghost use Rattle.completion.specs.Offers.{Offers};

use arrayvec::ArrayVec;
use sets::SetKind;
use systems::State;
use tables::{Table, TableFault};

// Puts the row of the items that are up.
pub(crate) fn offer<K: SetKind>(table: &mut Table<K>, row: &State) -> Result<usize, TableFault>
    ensures kept { Kept table.old table.new }
    ensures refused { OnErr result (Unchanged table.old table.new) }
    ensures offers { (n : ℕ) (ps : List Numbers) → Holds K.mem table.old n ps → row.now.count ≡ n → (qs : List Numbers) × Offers n table.old.capacity K.holds ps (up row.now) (table_reply result) qs × Holds K.mem table.new n qs }
{
    let mut items: ArrayVec<usize, 256> = ArrayVec::new();
    for item in 0..row.count() {
        if row.is_up(item) {
            // there is room, so `push` cannot fail; `extend` over a chain answers a `Result`
            items.push(item);
        }
    }
    table.put(items.as_slice())
}
