// The row of one line, put into a table.
ghost use Rattle.std.specs.Prelude.{◌≡◌, ℕ, List, map};
ghost use Rattle.sets.specs.Sets.{Numbers};
ghost use Rattle.tables.specs.Tables.{Holds, Kept};
ghost use Rattle.sheets.specs.Bytes.{Row};
ghost use Rattle.sheets.specs.Labels.{named};
ghost use Rattle.sheets.specs.RowPuts.{RowPut};
ghost use Rattle.sheets.specs.RowsFaults.{at_line};
ghost use Rattle.sheets.specs.declared.putting.RowFault.TheVariants.{Table as OfTable};

use crate::look::look_up;
use crate::place::LabelPlace;
use crate::rows_fault::RowsFault;
use sets::SetKind;
use tables::{Table, TableFault};

// As many numbers as decide what `put` answers: of 257 numbers one is not below 256, or stands there twice.
const KEPT: usize = 257;

// Why a row is not put.
#[derive(Clone, Copy, Debug, PartialEq, Eq)]
pub(crate) enum RowFault {
    NoItem,
    Table(TableFault),
}

impl RowFault {
    // The refusal where it is the row of this line.
    pub(crate) fn at(self, line: usize) -> RowsFault
        ensures { result ≡ at_line line self }
    {
        match self {
            RowFault::NoItem => RowsFault::NoItem(line),
            RowFault::Table(fault) => RowsFault::Put(fault, line),
        }
    }
}

impl From<TableFault> for RowFault {
    ghost from_gives = { λ fault r. r ≡ OfTable fault };

    fn from(fault: TableFault) -> RowFault {
        RowFault::Table(fault)
    }
}

// Puts the row that has these bytes behind the head of its line.
pub(crate) fn put_row<K: SetKind>(
    text: &[u8],
    places: &[LabelPlace],
    row: &[u8],
    table: &mut Table<K>,
) -> Result<(), RowFault>
    requires { Row row.now }
    ensures kept { Kept table.old table.new }
    ensures puts { (n : ℕ) (ps : List Numbers) → Holds K.mem table.old n ps → (qs : List Numbers) × Holds K.mem table.new n qs × RowPut n table.old.capacity K.holds (map (named text.now) places.now) row.now ps result qs }
{
    let mut memory = [0; KEPT];
    let items = look_up(text, places, row, &mut memory).ok_or(RowFault::NoItem)?;
    table.put(items)?;
    Ok(())
}
