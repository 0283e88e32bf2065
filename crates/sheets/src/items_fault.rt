// Why the first reading call is refused.
ghost use Rattle.std.specs.Prelude.{◌≡◌, Some};
ghost use Rattle.sheets.specs.ItemsFaults.{items_refusal, items_fault_text, items_fault_line, unformed_line};

use crate::line::LineFault;
use std::error::Error;
use std::fmt;

#[derive(Clone, Copy, Debug, PartialEq, Eq)]
pub enum ItemsFault {
    // 1: the item count 257, and the line of that item; or the count 0, and the line 0
    ItemCount(usize, usize),
    // 6: the number of places, with none left, and the line
    NoPlace(usize, usize),
    // 13: the length of the text
    TooLong(usize),
    // 14: the line that is not formed
    Unformed(usize),
    // 15: the line with the label of an earlier item, and that item
    Repeated(usize, usize),
}

impl ItemsFault {
    // The refusal's number.
    pub fn number(&self) -> usize
        ensures { result ≡ (items_refusal self.now).number }
    {
        match *self {
            ItemsFault::ItemCount(_, _) => 1,
            ItemsFault::NoPlace(_, _) => 6,
            ItemsFault::TooLong(_) => 13,
            ItemsFault::Unformed(_) => 14,
            ItemsFault::Repeated(_, _) => 15,
        }
    }

    // The line that it names; 0 if it names none.
    pub fn line(&self) -> usize
        ensures { result ≡ items_fault_line self.now }
    {
        match *self {
            ItemsFault::TooLong(_) => 0,
            ItemsFault::ItemCount(_, line)
            | ItemsFault::NoPlace(_, line)
            | ItemsFault::Unformed(line)
            | ItemsFault::Repeated(line, _) => line,
        }
    }
}

impl From<LineFault> for ItemsFault {
    ghost from_gives = { λ fault r. r ≡ unformed_line fault };

    fn from(fault: LineFault) -> ItemsFault {
        match fault {
            LineFault::Bad(line) => ItemsFault::Unformed(line),
        }
    }
}

// What the refusal says, with its values.
impl fmt::Display for ItemsFault {
    ghost output = { λ fault. Some (items_fault_text fault) };

    fn fmt<W: fmt::Write>(&self, f: &mut fmt::Formatter<W>) -> fmt::Result {
        match *self {
            ItemsFault::ItemCount(count, line) => write!(f, "item count {count}, line {line}"),
            ItemsFault::NoPlace(places, line) => {
                write!(f, "no free place, of {places}, line {line}")
            }
            ItemsFault::TooLong(len) => write!(f, "a text of {len} bytes"),
            ItemsFault::Unformed(line) => write!(f, "line {line} is not formed"),
            ItemsFault::Repeated(line, item) => write!(f, "label of item {item}, line {line}"),
        }
    }
}

impl Error for ItemsFault {}
