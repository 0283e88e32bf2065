// What every set kind means and answers.
ghost use Rattle.std.specs.Prelude.{◌≡◌, ℕ, ◌≤◌, ◌&&◌, ◌==◌, cond, nat_lt, true, Decides, MatchOption, OnOk, OnErr, Some, codes};
ghost use Rattle.sets.specs.Sets.{Numbers, nothing, with, without, Within, Apart, Same, Below, count, Lowest, NoneFrom};
ghost use Rattle.sets.specs.Marks.{marked};
ghost use Rattle.sets.specs.Masks.{low_marked};
ghost use Rattle.sets.specs.Columns.{column, Joined};
ghost use Rattle.sets.specs.Members.{members_from, members_left};

use crate::columns::Columns;
use crate::marks::Marks;
use crate::mask::Mask;
use crate::members::Members;
use std::error::Error;
use std::fmt;

// The kind cannot hold the set that was asked for.
#[derive(Clone, Copy, Debug, PartialEq, Eq)]
pub struct CannotHold;

impl fmt::Display for CannotHold {
    ghost output = { λ _. Some (codes "the set kind cannot hold this set") };

    fn fmt<W: fmt::Write>(&self, f: &mut fmt::Formatter<W>) -> fmt::Result {
        write!(f, "the set kind cannot hold this set")
    }
}

impl Error for CannotHold {}

// A value means a set of numbers below the kind's ceiling, `top`; `holds` says which sets the kind can hold.
pub trait SetKind: Drop {
    ghost top: { ℕ };

    ghost mem: { Self → Numbers };

    ghost holds: { Numbers → Type 0 };

    // The ceiling, the same for every value.
    fn ceiling() -> usize
        ensures { result ≡ top };

    fn empty() -> Self
        ensures { Same (mem result) nothing };

    // The set with k; if it cannot be held, the value stays.
    fn insert(&mut self, k: usize) -> Result<(), CannotHold>
        ensures ok { OnOk result (Same (mem self.new) (with (mem self.old) k)) }
        ensures err { OnErr result ((holds (with (mem self.old) k) → ⊥) × (self.new ≡ self.old)) };

    fn remove(&mut self, k: usize)
        ensures { Same (mem self.new) (without (mem self.old) k) };

    fn member(&self, k: usize) -> bool
        ensures { result ≡ mem self.now k };

    // How many members there are.
    fn size(&self) -> usize
        ensures { result ≡ count (mem self.now) top };

    // Whether each member is one of the other set's.
    fn within(&self, other: &Self) -> bool
        ensures { Decides result (Within (mem self.now) (mem other.now)) };

    // Whether no member is one of the other set's.
    fn apart(&self, other: &Self) -> bool
        ensures { Decides result (Apart (mem self.now) (mem other.now)) };

    // The lowest member at or above k.
    fn next(&self, k: usize) -> Option<usize>
        ensures { MatchOption result (NoneFrom (mem self.now) k) (Lowest (mem self.now) k) };

    // Whether each member is marked.
    fn all_marked(&self, marks: &Marks) -> bool
        ensures { Decides result (Within (mem self.now) (marked marks.now)) }
    {
        let mut from = 0;
        'all: while let Some(k) = self.next(from) {
            if !marks.has(k) {
                return false;
            }
            from = k + 1;
        }
        true
    }

    // Whether no member is marked.
    fn none_marked(&self, marks: &Marks) -> bool
        ensures { Decides result (Apart (mem self.now) (marked marks.now)) }
    {
        let mut from = 0;
        'none: while let Some(k) = self.next(from) {
            if marks.has(k) {
                return false;
            }
            from = k + 1;
        }
        true
    }

    // The members as marks.
    fn marks(&self) -> Marks
        ensures { Same (marked result) (mem self.now) }
    {
        let mut marks = Marks::none();
        let mut from = 0;
        'marking: while let Some(k) = self.next(from) {
            marks.set(k, true);
            from = k + 1;
        }
        marks
    }

    // Puts the place into the column of each member.
    fn put_in(&self, columns: &mut Columns, place: usize)
        ensures { (i j : ℕ) → column columns.new i j ≡ cond (mem self.now i && (nat_lt place 256 && j == place)) true (column columns.old i j) }
    {
        let mut from = 0;
        'putting: while let Some(k) = self.next(from) {
            columns.put(k, place);
            from = k + 1;
        }
    }

    // The places that stand in the column of some member.
    fn join(&self, columns: &Columns) -> Marks
        ensures { (j : ℕ) → Decides (low_marked result j) (Joined columns.now (mem self.now) j) }
    {
        let mut joined = Marks::none();
        let mut from = 0;
        'joining: while let Some(k) = self.next(from) {
            joined = joined.or(columns.of(k));
            from = k + 1;
        }
        joined
    }

    // The members, in rising order.
    final fn members(&self) -> Members<'_, Self>
        ensures { members_left mem top result ≡ members_from (mem self.now) 0 top }
    {
        Members::of(self)
    }

    ghost small: { top ≤ 256 };

    ghost below: { (x : Self) → Below top (mem x) };

    ghost held: { (x : Self) → holds (mem x) };

    ghost none: { holds nothing };

    ghost less: { (s t : Numbers) → holds s → Within t s → holds t };
}
