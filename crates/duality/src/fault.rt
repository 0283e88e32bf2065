// Why a call on two tables is refused.
ghost use Rattle.std.specs.Prelude.{◌≡◌, Some};
ghost use Rattle.duality.specs.Pairs.{pair_refusal, pair_text};

use std::error::Error;
use std::fmt;

#[derive(Clone, Copy, Debug, PartialEq, Eq)]
pub enum PairFault {
    // 1: the item count 0 of a table
    ItemCount(usize),
    // 8: two counts that differ
    CountsDiffer(usize, usize),
}

impl PairFault {
    // The refusal's number.
    pub fn number(&self) -> usize
        ensures { result ≡ (pair_refusal self.now).number }
    {
        match *self {
            PairFault::ItemCount(_) => 1,
            PairFault::CountsDiffer(_, _) => 8,
        }
    }
}

// What the refusal says, with its values.
impl fmt::Display for PairFault {
    ghost output = { λ fault. Some (pair_text fault) };

    fn fmt<W: fmt::Write>(&self, f: &mut fmt::Formatter<W>) -> fmt::Result {
        match self {
            PairFault::ItemCount(count) => write!(f, "item count {count}"),
            PairFault::CountsDiffer(first, second) => {
                write!(f, "item counts {first} and {second}")
            },
        }
    }
}

impl Error for PairFault {}
