// The list kind: at most 16 numbers below 256, in rising order.
ghost use Rattle.std.specs.Prelude.{◌≡◌, ◌≤◌, T, take};
ghost use Rattle.sets.specs.Sets.{listed};
ghost use Rattle.sets.specs.Rising.{rising, Sixteen};
ghost use Rattle.sets.specs.Listing.{listed_bounds};
ghost use Rattle.sets.specs.ListLaws.{held_list, held_none, held_less};
ghost use Rattle.std.proofs.Common.{lit≤};

use crate::columns::Columns;
use crate::kind::{CannotHold, SetKind};
use crate::marks::Marks;
use crate::mask::Mask;

// How many numbers a list has room for.
const ROOM: usize = 16;

// The first `len` numbers are the members; what stands behind them means nothing. An array, not a vector: it allocates nothing and can be
// copied.
#[derive(Clone, Copy)]
pub struct ListSet {
    len: usize,
    numbers: [u8; ROOM],
    ghost ok: { (len ≤ 16) × T (rising 0 (take len numbers)) },
}

impl ListSet {
    // The members, in rising order.
    fn as_slice(&self) -> &[u8]
        ensures { result.now ≡ take self.now.len self.now.numbers }
    {
        &self.numbers[..self.len]
    }
}

impl SetKind for ListSet {
    ghost top = { 256 };

    ghost mem = { λ x. listed (take x.len x.numbers) };

    ghost holds = { Sixteen };

    ghost small = { lit≤ tt };

    ghost below = { λ x k m. (listed_bounds 0 (take x.len x.numbers) k x.ok.1 m).1 };

    ghost held = { λ x. held_list x.len x.numbers x.ok.0 x.ok.1 };

    ghost none = { held_none };

    ghost less = { held_less };

    fn ceiling() -> usize {
        256
    }

    fn empty() -> ListSet {
        ListSet {
            len: 0,
            numbers: [0; ROOM],
        }
    }

    fn insert(&mut self, k: usize) -> Result<(), CannotHold> {
        let number = u8::try_from(k).map_err(|_| CannotHold)?;
        let Err(at) = self.as_slice().binary_search(&number) else {
            return Ok(());
        };
        if self.len == ROOM {
            return Err(CannotHold);
        }
        self.numbers[self.len] = number;
        self.len += 1;
        self.numbers[at..self.len].rotate_right(1);
        Ok(())
    }

    fn remove(&mut self, k: usize) {
        let found = self.as_slice().iter().position(|x| usize::from(*x) == k);
        if let Some(at) = found {
            self.numbers[at..self.len].rotate_left(1);
            self.len -= 1;
        }
    }

    fn member(&self, k: usize) -> bool {
        self.next(k) == Some(k)
    }

    fn size(&self) -> usize {
        self.as_slice().len()
    }

    // Both lists rise, so one walk over the two decides.
    fn within(&self, other: &ListSet) -> bool {
        let mut mine = self.as_slice();
        let mut theirs = other.as_slice();
        'walk: while let [x, rest @ ..] = mine {
            let [y, others @ ..] = theirs else {
                return false;
            };
            if y > x {
                return false;
            }
            if y == x {
                mine = rest;
            }
            theirs = others;
        }
        true
    }

    fn apart(&self, other: &ListSet) -> bool {
        let mut mine = self.as_slice();
        let mut theirs = other.as_slice();
        'walk: while let [x, rest @ ..] = mine {
            let [y, others @ ..] = theirs else {
                return true;
            };
            if x == y {
                return false;
            }
            if x < y {
                mine = rest;
            } else {
                theirs = others;
            }
        }
        true
    }

    fn next(&self, k: usize) -> Option<usize> {
        self.as_slice()
            .iter()
            .map(|x| usize::from(*x))
            .find(|x| *x >= k)
    }

    fn all_marked(&self, marks: &Marks) -> bool {
        self.as_slice().iter().all(|x| marks.has(usize::from(*x)))
    }

    fn none_marked(&self, marks: &Marks) -> bool {
        !self.as_slice().iter().any(|x| marks.has(usize::from(*x)))
    }

    fn marks(&self) -> Marks {
        let mut marks = Marks::none();
        for x in self.as_slice() {
            marks.set(usize::from(*x), true);
        }
        marks
    }

    fn put_in(&self, columns: &mut Columns, place: usize) {
        for x in self.as_slice() {
            columns.put(usize::from(*x), place);
        }
    }

    fn join(&self, columns: &Columns) -> Marks {
        let mut joined = Marks::none();
        for x in self.as_slice() {
            joined = joined.or(columns.of(usize::from(*x)));
        }
        joined
    }
}
