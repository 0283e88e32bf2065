// Why a writing call is refused.
ghost use Rattle.std.specs.Prelude.{◌≡◌, Some};
ghost use Rattle.writing.specs.Faults.{write_refusal, write_fault_text, unfit};

use duality::PairFault;
use std::error::Error;
use std::fmt;

#[derive(Clone, Copy, Debug, PartialEq, Eq)]
pub enum WriteFault {
    // 1: the item count 0 of a table
    ItemCount(usize),
    // 8: two counts that differ
    CountsDiffer(usize, usize),
    // 13: the length of the text in which the labels lie
    TooLong(usize),
    // 12: the length that the output needs
    NoRoom(usize),
}

impl WriteFault {
    // The refusal's number.
    pub fn number(&self) -> usize
        ensures { result ≡ (write_refusal self.now).number }
    {
        match *self {
            WriteFault::ItemCount(_) => 1,
            WriteFault::CountsDiffer(_, _) => 8,
            WriteFault::TooLong(_) => 13,
            WriteFault::NoRoom(_) => 12,
        }
    }
}

impl From<PairFault> for WriteFault {
    ghost from_gives = { λ fault w. w ≡ unfit fault };

    fn from(fault: PairFault) -> WriteFault {
        match fault {
            PairFault::ItemCount(count) => WriteFault::ItemCount(count),
            PairFault::CountsDiffer(first, second) => WriteFault::CountsDiffer(first, second),
        }
    }
}

// What the refusal says, with its values.
impl fmt::Display for WriteFault {
    ghost output = { λ fault. Some (write_fault_text fault) };

    fn fmt<W: fmt::Write>(&self, f: &mut fmt::Formatter<W>) -> fmt::Result {
        match *self {
            WriteFault::ItemCount(count) => write!(f, "item count {count}"),
            WriteFault::CountsDiffer(first, second) => write!(f, "counts {first} and {second}"),
            WriteFault::TooLong(len) => write!(f, "a text of {len} bytes"),
            WriteFault::NoRoom(needed) => write!(f, "an output of {needed} bytes has no room"),
        }
    }
}

impl Error for WriteFault {}
