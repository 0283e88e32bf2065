// The word kind: a set of numbers below 64 in the bits of one word.
ghost use Rattle.std.specs.Prelude.{◌≡◌, ◌^◌, ◌<◌, ◌&&◌, nat_lt};
ghost use Rattle.sets.specs.Sets.{Same, Below};
ghost use Rattle.sets.specs.Words.{word_set};
ghost use Rattle.sets.specs.WordBelow.{word_under};
ghost use Rattle.std.proofs.Common.{lit≤};

use crate::kind::{CannotHold, SetKind};
use crate::marks::Marks;

#[derive(Clone, Copy, Debug, PartialEq, Eq)]
pub struct WordSet {
    pub(crate) bits: u64,
}

// The word whose one bit is k.
pub(crate) fn single(k: usize) -> u64
    requires { k < 64 }
    ensures { result ≡ 2 ^ k }
{
    1u64 << k
}

// The word whose bits below k are set.
pub(crate) fn low_bits(k: usize) -> u64
    ensures { Same (word_set result) (λ j. nat_lt j 64 && nat_lt j k) }
{
    if k < 64 { single(k) - 1 } else { u64::MAX }
}

impl SetKind for WordSet {
    ghost top = { 64 };

    ghost mem = { λ x. word_set x.bits };

    ghost holds = { Below 64 };

    ghost small = { lit≤ tt };

    ghost below = { λ x. word_under x.bits };

    ghost held = { λ x. word_under x.bits };

    ghost none = { λ k t. absurd t };

    ghost less = { λ s t h w k m. h k (w k m) };

    fn ceiling() -> usize {
        64
    }

    fn empty() -> WordSet {
        WordSet { bits: 0 }
    }

    fn insert(&mut self, k: usize) -> Result<(), CannotHold> {
        if k >= 64 {
            return Err(CannotHold);
        }
        self.bits |= single(k);
        Ok(())
    }

    fn remove(&mut self, k: usize) {
        if k < 64 {
            self.bits &= !single(k);
        }
    }

    fn member(&self, k: usize) -> bool {
        k < 64 && (self.bits >> k) & 1 == 1
    }

    fn size(&self) -> usize {
        self.bits.count_ones() as usize
    }

    fn within(&self, other: &WordSet) -> bool {
        self.bits & other.bits == self.bits
    }

    fn apart(&self, other: &WordSet) -> bool {
        self.bits & other.bits == 0
    }

    fn next(&self, k: usize) -> Option<usize> {
        if k >= 64 {
            return None;
        }
        let rest = self.bits & (u64::MAX << k);
        (rest != 0).then(|| rest.trailing_zeros() as usize)
    }

    fn all_marked(&self, marks: &Marks) -> bool {
        self.bits & marks.words[0] == self.bits
    }

    fn none_marked(&self, marks: &Marks) -> bool {
        self.bits & marks.words[0] == 0
    }

    fn marks(&self) -> Marks {
        Marks {
            words: [self.bits, 0, 0, 0],
        }
    }
}
