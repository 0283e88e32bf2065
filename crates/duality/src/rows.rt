// Rows against a state, and against one another.
ghost use Rattle.std.specs.Prelude.{◌≡◌, map, Decides};
ghost use Rattle.sets.specs.Marks.{marked};
ghost use Rattle.systems.specs.States.{up};
ghost use Rattle.systems.specs.Systems.{Fails};
ghost use Rattle.tables.specs.Memory.{meant};
ghost use Rattle.duality.specs.Shares.{is_within, is_apart};

use sets::{Marks, SetKind};
use systems::{State, all_down, all_up};
use tables::Row;

// Whether all items of the row are up. (By a test that computes: with `all_down` itself in the closure of `any`, what it answers stays open.)
pub(crate) fn is_up<K: SetKind>(row: &Row<K>, state: &State) -> bool
    ensures { result ≡ is_within (meant K.mem row.now) (up state.now) }
{
    all_up(row.set(), state)
}

// Whether all items of the row are down.
pub(crate) fn is_down<K: SetKind>(row: &Row<K>, state: &State) -> bool
    ensures { result ≡ is_apart (meant K.mem row.now) (up state.now) }
{
    all_down(row.set(), state)
}

// Whether the row has no item that is marked.
fn is_unmarked<K: SetKind>(row: &Row<K>, items: &Marks) -> bool
    ensures { result ≡ is_apart (meant K.mem row.now) (marked items.now) }
{
    row.set().none_marked(items)
}

// Whether some cut has no item of the row.
pub(crate) fn some_apart<K: SetKind>(row: &Row<K>, cuts: &[Row<K>]) -> bool
    ensures { Decides result (Fails (map (meant K.mem) cuts.now) (meant K.mem row.now)) }
{
    let items = row.set().marks();
    cuts.iter().any(|cut| is_unmarked(cut, &items))
}
