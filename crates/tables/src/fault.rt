// Why a call on a table is refused.
ghost use Rattle.std.specs.Prelude.{◌≡◌, [], ◌∷◌, Some};
ghost use Rattle.tables.specs.Refusals.{table_refusal, table_text};

use std::error::Error;
use std::fmt;

#[derive(Clone, Copy, Debug, PartialEq, Eq)]
pub enum TableFault {
    // 1: the item count, 0 or above the kind's ceiling
    ItemCount(usize),
    // 2: the place in the list of an item not below the item count
    NoSuchItem(usize),
    // 3: the second place of an item that the list has twice
    Repeated(usize),
    // 4: the first place whose item makes the row more than the kind can hold
    CannotHold(usize),
    // 5: the lowest row of the table that the new row contains
    Contains(usize),
    // 6: the capacity, with no place free
    Full(usize),
    // 7: the row count, where there is no such row
    NoSuchRow(usize),
}

impl TableFault {
    // The refusal's number.
    pub fn number(&self) -> usize
        ensures { result ≡ (table_refusal self.now).number }
    {
        match self {
            TableFault::ItemCount(_) => 1,
            TableFault::NoSuchItem(_) => 2,
            TableFault::Repeated(_) => 3,
            TableFault::CannotHold(_) => 4,
            TableFault::Contains(_) => 5,
            TableFault::Full(_) => 6,
            TableFault::NoSuchRow(_) => 7,
        }
    }

    // The one value that comes with it.
    pub fn value(&self) -> usize
        ensures { (table_refusal self.now).values ≡ result ∷ [] }
    {
        match *self {
            TableFault::ItemCount(value)
            | TableFault::NoSuchItem(value)
            | TableFault::Repeated(value)
            | TableFault::CannotHold(value)
            | TableFault::Contains(value)
            | TableFault::Full(value)
            | TableFault::NoSuchRow(value) => value,
        }
    }
}

// What the refusal says, with its value.
impl fmt::Display for TableFault {
    ghost output = { λ fault. Some (table_text fault) };

    fn fmt<W: fmt::Write>(&self, f: &mut fmt::Formatter<W>) -> fmt::Result {
        match self {
            TableFault::ItemCount(count) => write!(f, "item count {count}"),
            TableFault::NoSuchItem(place) => write!(f, "no such item, at place {place}"),
            TableFault::Repeated(place) => write!(f, "an item a second time, at place {place}"),
            TableFault::CannotHold(place) => {
                write!(f, "more than the kind can hold, at place {place}")
            }
            TableFault::Contains(row) => write!(f, "it contains row {row}"),
            TableFault::Full(capacity) => write!(f, "no free place, capacity {capacity}"),
            TableFault::NoSuchRow(count) => write!(f, "no such row, row count {count}"),
        }
    }
}

impl Error for TableFault {}
