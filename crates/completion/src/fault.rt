// Why a completion is refused.
ghost use Rattle.std.specs.Prelude.{◌≡◌, Some};
ghost use Rattle.tables.specs.Refusals.{table_refusal};
ghost use Rattle.completion.specs.Fills.{why_blocked, blocked_at};
ghost use Rattle.completion.specs.Completions.{completion_refusal, completion_text};
ghost use Rattle.completion.specs.declared.fault.CompletionFault.TheVariants.{Pair};

use crate::side::Side;
use duality::PairFault;
use std::error::Error;
use std::fmt;
use tables::TableFault;

#[derive(Clone, Copy, Debug, PartialEq, Eq)]
pub enum CompletionFault {
    // 1 or 8: the item counts of the tables and the drawing
    Pair(PairFault),
    // 9: the table and the row that the drawing does not bear out
    NotBorneOut(Side, usize),
    // 10: the table, now full, for which there is one more minimal row
    MoreThanPlaces(Side),
    // 11: the table of a minimal row that the kind cannot hold
    CannotHold(Side),
}

impl CompletionFault {
    // The refusal's number.
    pub fn number(&self) -> usize
        ensures { result ≡ (completion_refusal self.now).number }
    {
        match *self {
            CompletionFault::Pair(fault) => fault.number(),
            CompletionFault::NotBorneOut(_, _) => 9,
            CompletionFault::MoreThanPlaces(_) => 10,
            CompletionFault::CannotHold(_) => 11,
        }
    }
}

impl From<PairFault> for CompletionFault {
    ghost from_gives = { λ fault r. r ≡ Pair fault };

    fn from(fault: PairFault) -> CompletionFault {
        CompletionFault::Pair(fault)
    }
}

// What the refusal says, with its values.
impl fmt::Display for CompletionFault {
    ghost output = { λ fault. Some (completion_text fault) };

    fn fmt<W: fmt::Write>(&self, f: &mut fmt::Formatter<W>) -> fmt::Result {
        match *self {
            CompletionFault::Pair(fault) => write!(f, "{fault}"),
            CompletionFault::NotBorneOut(side, row) => {
                write!(f, "row {row} of the {side} is not borne out")
            }
            CompletionFault::MoreThanPlaces(side) => write!(f, "more minimal {side} than places"),
            CompletionFault::CannotHold(side) => write!(f, "minimal {side} that cannot be held"),
        }
    }
}

impl Error for CompletionFault {}

// Why a table takes no minimal row.
#[derive(Clone, Copy, Debug, PartialEq, Eq)]
pub(crate) enum Blocked {
    Full,
    Unheld,
}

impl Blocked {
    // The refusal where it is the table of this side.
    pub(crate) fn at(self, side: Side) -> CompletionFault
        ensures { result ≡ blocked_at side self }
    {
        match self {
            Blocked::Full => CompletionFault::MoreThanPlaces(side),
            Blocked::Unheld => CompletionFault::CannotHold(side),
        }
    }
}

impl From<TableFault> for Blocked {
    ghost from_gives = { λ fault r. r ≡ why_blocked (table_refusal fault).number };

    fn from(fault: TableFault) -> Blocked {
        match fault {
            TableFault::CannotHold(_) => Blocked::Unheld,
            _ => Blocked::Full,
        }
    }
}
