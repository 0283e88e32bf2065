// Why a text has no report.
ghost use Rattle.std.specs.Prelude.{◌≡◌, Some};
ghost use Rattle.writing.specs.TextFaults.{text_refusal, text_fault_line, text_fault_text};
ghost use Rattle.writing.specs.Faults.{unfit};
ghost use Rattle.writing.specs.declared.text_fault.TextFault.TheVariants.{Items, Rows, Write};

use crate::fault::WriteFault;
use duality::PairFault;
use sheets::{ItemsFault, RowsFault};
use std::error::Error;
use std::fmt;

#[derive(Clone, Copy, Debug, PartialEq, Eq)]
pub enum TextFault {
    // the labels are not read
    Items(ItemsFault),
    // the rows are not read
    Rows(RowsFault),
    // the report is not written
    Write(WriteFault),
}

impl TextFault {
    // The refusal's number.
    pub fn number(&self) -> usize
        ensures { result ≡ (text_refusal self.now).number }
    {
        match self {
            TextFault::Items(fault) => fault.number(),
            TextFault::Rows(fault) => fault.number(),
            TextFault::Write(fault) => fault.number(),
        }
    }

    // The line that it names; 0 if it names none.
    pub fn line(&self) -> usize
        ensures { result ≡ text_fault_line self.now }
    {
        match self {
            TextFault::Items(fault) => fault.line(),
            TextFault::Rows(fault) => fault.line(),
            TextFault::Write(_) => 0,
        }
    }
}

impl From<ItemsFault> for TextFault {
    ghost from_gives = { λ fault t. t ≡ Items fault };

    fn from(fault: ItemsFault) -> TextFault {
        TextFault::Items(fault)
    }
}

impl From<RowsFault> for TextFault {
    ghost from_gives = { λ fault t. t ≡ Rows fault };

    fn from(fault: RowsFault) -> TextFault {
        TextFault::Rows(fault)
    }
}

impl From<WriteFault> for TextFault {
    ghost from_gives = { λ fault t. t ≡ Write fault };

    fn from(fault: WriteFault) -> TextFault {
        TextFault::Write(fault)
    }
}

impl From<PairFault> for TextFault {
    ghost from_gives = { λ fault t. t ≡ Write (unfit fault) };

    fn from(fault: PairFault) -> TextFault {
        TextFault::Write(fault.into())
    }
}

// What the refusal says, with its values.
impl fmt::Display for TextFault {
    ghost output = { λ fault. Some (text_fault_text fault) };

    fn fmt<W: fmt::Write>(&self, f: &mut fmt::Formatter<W>) -> fmt::Result {
        match self {
            TextFault::Items(fault) => write!(f, "{fault}"),
            TextFault::Rows(fault) => write!(f, "{fault}"),
            TextFault::Write(fault) => write!(f, "{fault}"),
        }
    }
}

impl Error for TextFault {}
