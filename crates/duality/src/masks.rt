// Rows as masks.
ghost use Rattle.std.specs.Prelude.{◌≡◌, ◌≤◌, Bool, true, map, length, take, filter};
ghost use Rattle.std.specs.List.Sorted.{IsPermutation};
ghost use Rattle.std.specs.Fn.{FnReturnsAt};
ghost use Rattle.sets.specs.Sets.{Numbers, Below};
ghost use Rattle.systems.specs.States.{up};
ghost use Rattle.systems.specs.Systems.{EachRow};
ghost use Rattle.tables.specs.Memory.{meant};
ghost use Rattle.duality.specs.Shares.{is_within, is_apart};
ghost use Rattle.duality.specs.Remaining.{Tests};

use sets::{Mask, SetKind};
use systems::State;
use tables::Row;

// Whether all rows have items below 64 alone. (A loop: of a closure that calls `is_low` it is not found what that answered.)
pub(crate) fn all_low<K: SetKind>(rows: &[Row<K>]) -> bool
    ensures { result ≡ true → EachRow (map (meant K.mem) rows.now) (Below 64) }
{
    for row in rows {
        if !is_low(row) {
            return false;
        }
    }
    true
}

fn is_low<K: SetKind>(row: &Row<K>) -> bool
    ensures { result ≡ true → Below 64 (meant K.mem row.now) }
{
    row.set().next(64).is_none()
}

// The items that are up.
pub(crate) fn mask_of<M: Mask>(state: &State) -> M
    requires { state.now.count ≤ M.most }
    ensures { M.bits result ≡ up state.now }
{
    M::of(state.marks())
}

// The masks of the rows.
pub(crate) fn load<M: Mask, K: SetKind>(places: &mut [M], rows: &[Row<K>])
    requires long { length places.old ≡ length rows.now }
    requires low { EachRow (map (meant K.mem) rows.now) (Below M.most) }
    ensures { map M.bits places.new ≡ map (meant K.mem) rows.now }
{
    for place in 0..rows.len() {
        places[place] = M::of(&rows[place].set().marks());
    }
}

// Whether the row is within the other mask. (A test that computes: with `is_within` itself in a closure, what it answers stays open.)
pub(crate) fn is_in<M: Mask>(row: &M, other: M) -> bool
    ensures { result ≡ is_within (M.bits row.now) (M.bits other) }
{
    row.is_within(other)
}

// Whether the row has no item of the other mask.
pub(crate) fn is_out<M: Mask>(row: &M, other: M) -> bool
    ensures { result ≡ is_apart (M.bits row.now) (M.bits other) }
{
    row.is_apart(other)
}

// Moves the masks that pass to the front, the others behind them, and answers how many pass. (A loop by places: a lent slice has no
// `retain`. It has no branch, which would often be foretold wrong: a mask that does not pass is swapped with one that does not either.)
pub(crate) fn sift<M: Mask, F: Fn(&M) -> bool>(masks: &mut [M], passes: &F) -> usize
    requires { F.IsAlwaysCallable passes.now }
    ensures moved { IsPermutation masks.old masks.new }
    ensures fewer { result ≤ length masks.old }
    ensures front { (test : Numbers → Bool) → Tests M.bits (FnReturnsAt F.Fn passes.now) test → take result masks.new ≡ filter (λ m. test (M.bits m)) masks.old }
{
    let mut stay = 0;
    for i in 0..masks.len() {
        let passed = passes(&masks[i]);
        masks.swap(stay, i);
        stay += usize::from(passed);
    }
    stay
}
