// Why the second reading call is refused.
ghost use Rattle.std.specs.Prelude.{◌≡◌, Some};
ghost use Rattle.sheets.specs.RowsFaults.{rows_refusal, rows_fault_text, rows_fault_line, unfit, unformed};
ghost use Rattle.sheets.specs.Lines.{line_fault};

use crate::line::LineFault;
use crate::split::SplitFault;
use duality::PairFault;
use std::error::Error;
use std::fmt;
use tables::TableFault;

#[derive(Clone, Copy, Debug, PartialEq, Eq)]
pub enum RowsFault {
    // 1: the item count 0 of a table
    ItemCount(usize),
    // 8: two counts that differ
    CountsDiffer(usize, usize),
    // 13: the length of the text
    TooLong(usize),
    // 14: the line that is not formed
    Unformed(usize),
    // 16: the line with a label of no item
    NoItem(usize),
    // the refusal of the table, whole, and the line of the row that it refuses
    Put(TableFault, usize),
}

impl RowsFault {
    // The refusal's number.
    pub fn number(&self) -> usize
        ensures { result ≡ (rows_refusal self.now).number }
    {
        match *self {
            RowsFault::ItemCount(_) => 1,
            RowsFault::CountsDiffer(_, _) => 8,
            RowsFault::TooLong(_) => 13,
            RowsFault::Unformed(_) => 14,
            RowsFault::NoItem(_) => 16,
            RowsFault::Put(fault, _) => fault.number(),
        }
    }

    // The line that it names; 0 if it names none.
    pub fn line(&self) -> usize
        ensures { result ≡ rows_fault_line self.now }
    {
        match *self {
            RowsFault::ItemCount(_) | RowsFault::CountsDiffer(_, _) | RowsFault::TooLong(_) => 0,
            RowsFault::Unformed(line) | RowsFault::NoItem(line) | RowsFault::Put(_, line) => line,
        }
    }
}

impl From<PairFault> for RowsFault {
    ghost from_gives = { λ fault r. r ≡ unfit fault };

    fn from(fault: PairFault) -> RowsFault {
        match fault {
            PairFault::ItemCount(count) => RowsFault::ItemCount(count),
            PairFault::CountsDiffer(first, second) => RowsFault::CountsDiffer(first, second),
        }
    }
}

impl From<LineFault> for RowsFault {
    ghost from_gives = { λ fault r. r ≡ unformed fault };

    fn from(fault: LineFault) -> RowsFault {
        match fault {
            LineFault::Bad(line) => RowsFault::Unformed(line),
        }
    }
}

impl From<SplitFault> for RowsFault {
    ghost from_gives = { λ fault r. r ≡ unformed (line_fault fault) };

    fn from(fault: SplitFault) -> RowsFault {
        match fault {
            SplitFault::Unended(line) => RowsFault::Unformed(line),
        }
    }
}

// What the refusal says, with its values.
impl fmt::Display for RowsFault {
    ghost output = { λ fault. Some (rows_fault_text fault) };

    fn fmt<W: fmt::Write>(&self, f: &mut fmt::Formatter<W>) -> fmt::Result {
        match *self {
            RowsFault::ItemCount(count) => write!(f, "item count {count}"),
            RowsFault::CountsDiffer(first, second) => write!(f, "counts {first} and {second}"),
            RowsFault::TooLong(len) => write!(f, "a text of {len} bytes"),
            RowsFault::Unformed(line) => write!(f, "line {line} is not formed"),
            RowsFault::NoItem(line) => write!(f, "a label of no item, line {line}"),
            RowsFault::Put(fault, line) => write!(f, "{fault}, line {line}"),
        }
    }
}

impl Error for RowsFault {}
