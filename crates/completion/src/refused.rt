// Why a call of a run is refused.
ghost use Rattle.std.specs.Prelude.{◌≡◌, Some};
ghost use Rattle.completion.specs.Refused.{refused_number, refused_text};
ghost use Rattle.completion.specs.declared.refused.Refused.TheVariants.{Table, Pair, Completion};

use crate::fault::CompletionFault;
use duality::PairFault;
use std::error::Error;
use std::fmt;
use tables::TableFault;

#[derive(Clone, Copy, Debug, PartialEq, Eq)]
pub enum Refused {
    // a put or a strike
    Table(TableFault),
    // an audit
    Pair(PairFault),
    // a completion
    Completion(CompletionFault),
    // a completion from the drawing with this number, which is not there
    NoDrawing(usize),
}

impl Refused {
    // The refusal's number, where it has one.
    pub fn number(&self) -> Option<usize>
        ensures { result ≡ refused_number self.now }
    {
        match self {
            Refused::Table(fault) => Some(fault.number()),
            Refused::Pair(fault) => Some(fault.number()),
            Refused::Completion(fault) => Some(fault.number()),
            Refused::NoDrawing(_) => None,
        }
    }
}

impl From<TableFault> for Refused {
    ghost from_gives = { λ fault r. r ≡ Table fault };

    fn from(fault: TableFault) -> Refused {
        Refused::Table(fault)
    }
}

impl From<PairFault> for Refused {
    ghost from_gives = { λ fault r. r ≡ Pair fault };

    fn from(fault: PairFault) -> Refused {
        Refused::Pair(fault)
    }
}

impl From<CompletionFault> for Refused {
    ghost from_gives = { λ fault r. r ≡ Completion fault };

    fn from(fault: CompletionFault) -> Refused {
        Refused::Completion(fault)
    }
}

// What the refusal says, with its values.
impl fmt::Display for Refused {
    ghost output = { λ refused. Some (refused_text refused) };

    fn fmt<W: fmt::Write>(&self, f: &mut fmt::Formatter<W>) -> fmt::Result {
        match self {
            Refused::Table(fault) => write!(f, "{fault}"),
            Refused::Pair(fault) => write!(f, "{fault}"),
            Refused::Completion(fault) => write!(f, "{fault}"),
            Refused::NoDrawing(_) => write!(f, "there is no such drawing"),
        }
    }
}

impl Error for Refused {}
