// Masks: sets of numbers in the bits of words, with the operations of whole words.
ghost use Rattle.std.specs.Prelude.{◌≡◌, ℕ, ◌<◌, ◌≤◌, not, ◌&&◌, ◌||◌, nat_lt, Decides, MatchOption};
ghost use Rattle.sets.specs.Sets.{Numbers, nothing, Within, Apart, Same, Below, Lowest, NoneFrom};
ghost use Rattle.sets.specs.Marks.{marked};
ghost use Rattle.sets.specs.Masks.{unlike, low_marked};
ghost use Rattle.sets.specs.Words.{word_set};
ghost use Rattle.sets.specs.WordBelow.{word_under};
ghost use Rattle.std.proofs.Common.{lit≤, ltb→lt};
ghost use Rattle.sets.specs.Truth.{and_T};

use crate::marks::Marks;
use crate::word::WordSet;

// A value means a set of numbers below `most`.
pub trait Mask: Copy {
    ghost most: { ℕ };

    ghost bits: { Self → Numbers };

    fn none() -> Self
        ensures { Same (bits result) nothing };

    // The marks that stand below `most`.
    fn of(marks: &Marks) -> Self
        ensures { (k : ℕ) → k < most → bits result k ≡ marked marks.now k };

    fn is_none(&self) -> bool
        ensures { Decides result (Same (bits self.now) nothing) };

    fn and(self, other: Self) -> Self
        ensures { Same (bits result) (λ k. bits self k && bits other k) };

    fn or(self, other: Self) -> Self
        ensures { Same (bits result) (λ k. bits self k || bits other k) };

    fn xor(self, other: Self) -> Self
        ensures { Same (bits result) (λ k. unlike (bits self k) (bits other k)) };

    fn without(self, other: Self) -> Self
        ensures { Same (bits result) (λ k. bits self k && not (bits other k)) };

    fn lowest(&self) -> Option<usize>
        ensures { MatchOption result (NoneFrom (bits self.now) 0) (Lowest (bits self.now) 0) };

    // Whether each number of this mask is one of the other's.
    fn is_within(self, other: Self) -> bool
        ensures { Decides result (Within (bits self) (bits other)) }
    {
        self.without(other).is_none()
    }

    // Whether no number is in both.
    fn is_apart(self, other: Self) -> bool
        ensures { Decides result (Apart (bits self) (bits other)) }
    {
        self.and(other).is_none()
    }

    ghost small: { most ≤ 256 };

    ghost under: { (x : Self) → Below most (bits x) };
}

impl Mask for Marks {
    ghost most = { 256 };

    ghost bits = { low_marked };

    ghost small = { lit≤ tt };

    ghost under = { λ x k t. ltb→lt k 256 (and_T (nat_lt k 256) (marked x k) t).0 };

    fn none() -> Marks {
        Marks { words: [0; 4] }
    }

    fn of(marks: &Marks) -> Marks {
        *marks
    }

    fn is_none(&self) -> bool {
        (self.words[0] == 0) & (self.words[1] == 0) & (self.words[2] == 0) & (self.words[3] == 0)
    }

    fn and(self, other: Marks) -> Marks {
        Marks {
            words: [
                self.words[0] & other.words[0],
                self.words[1] & other.words[1],
                self.words[2] & other.words[2],
                self.words[3] & other.words[3],
            ],
        }
    }

    fn or(self, other: Marks) -> Marks {
        Marks {
            words: [
                self.words[0] | other.words[0],
                self.words[1] | other.words[1],
                self.words[2] | other.words[2],
                self.words[3] | other.words[3],
            ],
        }
    }

    fn xor(self, other: Marks) -> Marks {
        Marks {
            words: [
                self.words[0] ^ other.words[0],
                self.words[1] ^ other.words[1],
                self.words[2] ^ other.words[2],
                self.words[3] ^ other.words[3],
            ],
        }
    }

    fn without(self, other: Marks) -> Marks {
        Marks {
            words: [
                self.words[0] & !other.words[0],
                self.words[1] & !other.words[1],
                self.words[2] & !other.words[2],
                self.words[3] & !other.words[3],
            ],
        }
    }

    fn lowest(&self) -> Option<usize> {
        for word in 0..4 {
            let bits = self.words[word];
            if bits != 0 {
                return Some(64 * word + bits.trailing_zeros() as usize);
            }
        }
        None
    }
}

impl Mask for WordSet {
    ghost most = { 64 };

    ghost bits = { λ x. word_set x.bits };

    ghost small = { lit≤ tt };

    ghost under = { λ x. word_under x.bits };

    fn none() -> WordSet {
        WordSet { bits: 0 }
    }

    fn of(marks: &Marks) -> WordSet {
        WordSet {
            bits: marks.words[0],
        }
    }

    fn is_none(&self) -> bool {
        self.bits == 0
    }

    fn and(self, other: WordSet) -> WordSet {
        WordSet {
            bits: self.bits & other.bits,
        }
    }

    fn or(self, other: WordSet) -> WordSet {
        WordSet {
            bits: self.bits | other.bits,
        }
    }

    fn xor(self, other: WordSet) -> WordSet {
        WordSet {
            bits: self.bits ^ other.bits,
        }
    }

    fn without(self, other: WordSet) -> WordSet {
        WordSet {
            bits: self.bits & !other.bits,
        }
    }

    fn lowest(&self) -> Option<usize> {
        (self.bits != 0).then(|| self.bits.trailing_zeros() as usize)
    }
}
