// A table of rows: path rows, or cut rows.
ghost use Rattle.std.specs.Prelude.{◌≤◌, length};

use crate::fault::TableFault;
use crate::gather::gather;
use crate::memory::{clear, close_up, keep_others, lowest_contained};
use crate::row::Row;
use sets::SetKind;

// The most rows that a table can have.
pub const MOST_ROWS: usize = 4096;

// The first `count` places of the memory hold the rows, and each place behind them, up to the capacity, the empty set.
#[derive(Drop)]
pub struct Table<'a, K: SetKind> {
    places: &'a mut [Row<K>],
    capacity: usize,
    count: usize,
    items: usize,
    ghost fits: { count ≤ capacity },
    ghost inside: { capacity ≤ length places.now },
    ghost few: { capacity ≤ 4096 },
    ghost small: { items ≤ 256 },
}

impl<'a, K: SetKind> Table<'a, K> {
    ghost use Rattle.std.specs.Prelude.{◌≡◌, ℕ, ◌<◌, ◌⊎◌, List, map, take, MatchResult, OnErr};
    ghost use Rattle.sets.specs.Sets.{Numbers};
    ghost use Rattle.tables.specs.Refusals.{table_refusal, table_reply, shown};
    ghost use Rattle.tables.specs.Memory.{meant};
    ghost use Rattle.tables.specs.Calls.{Judges, RowRefused, Puts, Strikes, Shows};
    ghost use Rattle.tables.specs.Tables.{places, Holds, Kept, Unchanged, Opened, OpenedWrong};
    ghost use Rattle.tables.specs.declared.fault.TableFault.TheVariants.{ItemCount};

    // Whether tables of this kind can have this many items: from 1 to the kind's ceiling.
    pub fn judge(items: usize) -> Result<(), TableFault>
        ensures { Judges K.top items (table_reply result) }
    {
        if !(1..=K::ceiling()).contains(&items) {
            return Err(TableFault::ItemCount(items));
        }
        Ok(())
    }

    // A table with no row, over the memory. With a count that is not permitted it has no item and no place.
    pub fn open(memory: &'a mut [Row<K>], items: usize) -> Table<'a, K>
        ensures lent { result.places.ghost_name ≡ memory.entry.ghost_name }
        ensures permitted { 1 ≤ items → items ≤ K.top → Opened K.mem items memory.old result }
        ensures wrong { (items ≡ 0) ⊎ (K.top < items) → OpenedWrong K.mem memory.old result }
    {
        if Self::judge(items).is_err() {
            return Table {
                places: memory,
                capacity: 0,
                count: 0,
                items: 0,
            };
        }
        let capacity = memory.len().min(MOST_ROWS);
        clear(&mut memory[..capacity]);
        Table {
            places: memory,
            capacity,
            count: 0,
            items,
        }
    }

    pub fn item_count(&self) -> usize
        ensures { result ≡ self.now.items }
    {
        self.items
    }

    pub fn capacity(&self) -> usize
        ensures { result ≡ self.now.capacity }
    {
        self.capacity
    }

    pub fn row_count(&self) -> usize
        ensures count { result ≡ self.now.count }
        ensures rows { (n : ℕ) (ps : List Numbers) → Holds K.mem self.now n ps → result ≡ length ps }
    {
        self.rows().len()
    }

    // The rows, in their order.
    pub fn rows(&self) -> &[Row<K>]
        ensures places { result.now ≡ take self.now.count (places self.now) }
        ensures rows { (n : ℕ) (ps : List Numbers) → Holds K.mem self.now n ps → map (meant K.mem) result.now ≡ ps }
    {
        &self.places[..self.count]
    }

    // The set of the row with this number.
    pub fn row(&self, row: usize) -> Result<&K, TableFault>
        ensures { (n : ℕ) (ps : List Numbers) → Holds K.mem self.now n ps → Shows n ps row (shown K.mem result) }
    {
        let index = self.index(row)?;
        Ok(self.rows()[index].set())
    }

    // Puts the row with these items behind the others, removes every row that contains it, and answers how many.
    pub fn put(&mut self, items: &[usize]) -> Result<usize, TableFault>
        ensures kept { Kept self.old self.new }
        ensures refused { OnErr result (Unchanged self.old self.new) }
        ensures puts { (n : ℕ) (ps : List Numbers) → Holds K.mem self.old n ps → (qs : List Numbers) × Puts n self.old.capacity K.holds ps items.now (table_reply result) qs × Holds K.mem self.new n qs }
    {
        self.opened()?;
        let row: K = gather(items, self.items)?;
        if let Some(lowest) = lowest_contained(self.rows(), &row) {
            return Err(TableFault::Contains(lowest));
        }
        let count = self.count;
        let stay = keep_others(&mut self.places[..count], &row);
        if stay == self.capacity {
            return Err(TableFault::Full(stay));
        }
        self.places[stay] = Row { set: row };
        self.count = stay + 1;
        Ok(count - stay)
    }

    // Removes the row with this number, and the later rows move up.
    pub fn strike(&mut self, row: usize) -> Result<(), TableFault>
        ensures kept { Kept self.old self.new }
        ensures refused { OnErr result (Unchanged self.old self.new) }
        ensures strikes { (n : ℕ) (ps : List Numbers) → Holds K.mem self.old n ps → (qs : List Numbers) × Strikes n ps row (table_reply result) qs × Holds K.mem self.new n qs }
    {
        let index = self.index(row)?;
        close_up(&mut self.places[..self.count], index);
        self.count -= 1;
        Ok(())
    }

    // Refusal 1 if the table was opened with a count that is not permitted.
    fn opened(&self) -> Result<(), TableFault>
        ensures { MatchResult result (λ _. 1 ≤ self.now.items) (λ f. (self.now.items ≡ 0) × (f ≡ ItemCount self.now.items)) }
    {
        if self.items == 0 {
            return Err(TableFault::ItemCount(self.items));
        }
        Ok(())
    }

    // The place of the row with this number.
    fn index(&self, row: usize) -> Result<usize, TableFault>
        ensures { MatchResult result (λ i. (1 ≤ self.now.items) × (row < self.now.count) × (i ≡ row)) (λ f. RowRefused self.now.items self.now.count row (table_refusal f).number (table_refusal f).values) }
    {
        self.opened()?;
        if row >= self.count {
            return Err(TableFault::NoSuchRow(self.count));
        }
        Ok(row)
    }
}
