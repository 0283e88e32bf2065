// Rows as callers in C have them, put into a table one after the other.
ghost use Rattle.std.specs.Prelude.{ℕ, List};
ghost use Rattle.sets.specs.Sets.{Numbers};
ghost use Rattle.tables.specs.Tables.{Holds, Kept};
ghost use Rattle.clib.specs.Fills.{cut, Fills};

use sets::SetKind;
use tables::{Table, TableFault};

// The items of all rows, one row after the other, and how many each has.
#[derive(Clone, Copy)]
pub(crate) struct Listed<'a> {
    pub(crate) items: &'a [usize],
    pub(crate) lens: &'a [usize],
}

// Puts the rows until one is refused.
pub(crate) fn fill<K: SetKind>(table: &mut Table<K>, rows: &Listed) -> Result<(), TableFault>
    ensures kept { Kept table.old table.new }
    ensures fills { (n : ℕ) (ps : List Numbers) → Holds K.mem table.old n ps → (qs : List Numbers) × Fills n table.old.capacity K.holds ps (cut rows.now.items.now rows.now.lens.now) result qs × Holds K.mem table.new n qs }
{
    let mut left = rows.items;
    for &len in rows.lens {
        let (row, rest) = left.split_at(len.min(left.len()));
        table.put(row)?;
        left = rest;
    }
    Ok(())
}
