// Marks of the numbers below 256: a set of any of them, which the tests of a row against a state go by.
ghost use Rattle.std.specs.Prelude.{◌≡◌, ◌&&◌, ◌==◌, cond, nat_lt};
ghost use Rattle.sets.specs.Sets.{nothing, Same};
ghost use Rattle.sets.specs.Marks.{marked};

use crate::word::{low_bits, single};

#[derive(Clone, Copy, Debug, PartialEq, Eq)]
pub struct Marks {
    pub(crate) words: [u64; 4],
}

impl Marks {
    // No number is marked.
    #[tactic(auto, unfolding(crate::specs::Marks::marked))]
    pub fn none() -> Marks
        ensures { Same (marked result) nothing }
    {
        Marks { words: [0; 4] }
    }

    // The numbers below n are marked, of those below 256.
    pub fn below(n: usize) -> Marks
        ensures { Same (marked result) (λ k. nat_lt k 256 && nat_lt k n) }
    {
        Marks {
            words: [
                low_bits(n),
                low_bits(n.saturating_sub(64)),
                low_bits(n.saturating_sub(128)),
                low_bits(n.saturating_sub(192)),
            ],
        }
    }

    #[tactic(auto, unfolding(crate::specs::Marks::marked))]
    pub fn has(&self, k: usize) -> bool
        ensures { result ≡ marked self.now k }
    {
        k < 256 && (self.words[k / 64] >> (k % 64)) & 1 == 1
    }

    // Marks the number, or takes its mark; a number from 256 on changes nothing.
    pub fn set(&mut self, k: usize, is_marked: bool)
        ensures { Same (marked self.new) (λ j. cond (nat_lt k 256 && j == k) is_marked (marked self.old j)) }
    {
        if k < 256 {
            if is_marked {
                self.words[k / 64] |= single(k % 64);
            } else {
                self.words[k / 64] &= !single(k % 64);
            }
        }
    }
}
