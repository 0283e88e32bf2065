// The second reading call: the rows of a text.
ghost use Rattle.std.specs.Prelude.{ℕ, ◌+◌, ◌≤◌, List, length, drop, map};
ghost use Rattle.sets.specs.Sets.{Numbers};
ghost use Rattle.tables.specs.Tables.{Holds, Kept};
ghost use Rattle.sheets.specs.Labels.{named};
ghost use Rattle.tables.specs.Pasts.{Past};
ghost use Rattle.sheets.specs.Rows.{LinePut, RowsRead};
ghost use Rattle.sheets.specs.RowsCalls.{RowsCall};

use crate::MOST_BYTES;
use crate::counts::check_counts;
use crate::line::{Line, parse};
use crate::place::LabelPlace;
use crate::putting::put_row;
use crate::rows_fault::RowsFault;
use crate::skipping::skip_items;
use crate::split::next_line;
use sets::SetKind;
use tables::Table;

// Puts the row of one line, of the number `nth`.
pub(crate) fn put_line<K: SetKind>(
    text: &[u8],
    places: &[LabelPlace],
    line: &[u8],
    nth: usize,
    paths: &mut Table<K>,
    cuts: &mut Table<K>,
) -> Result<(), RowsFault>
    ensures paths_kept { Kept paths.old paths.new }
    ensures cuts_kept { Kept cuts.old cuts.new }
    ensures puts { (n : ℕ) (ps cs : List Numbers) → Holds K.mem paths.old n ps → Holds K.mem cuts.old n cs → (qs ds : List Numbers) × Holds K.mem paths.new n qs × Holds K.mem cuts.new n ds × LinePut n paths.old.capacity cuts.old.capacity K.holds (map (named text.now) places.now) line.now nth ps cs result qs ds }
{
    match parse(line, nth)? {
        Line::Item { .. } => Err(RowsFault::Unformed(nth)),
        Line::Path(row) => put_row(text, places, row, paths).map_err(|fault| fault.at(nth)),
        Line::Cuts(row) => put_row(text, places, row, cuts).map_err(|fault| fault.at(nth)),
    }
}

// Puts the rows from `from` on, where the line of the number `first` begins.
pub(crate) fn put_rows<K: SetKind>(
    text: &[u8],
    places: &[LabelPlace],
    from: usize,
    first: usize,
    paths: &mut Table<K>,
    cuts: &mut Table<K>,
) -> Result<(), RowsFault>
    requires inside { from ≤ length text.now }
    requires low { first ≤ from + 1 }
    ensures paths_kept { Kept paths.old paths.new }
    ensures cuts_kept { Kept cuts.old cuts.new }
    ensures reads { (n : ℕ) (ps cs : List Numbers) → Holds K.mem paths.old n ps → Holds K.mem cuts.old n cs → (qs ds : List Numbers) × Holds K.mem paths.new n qs × Holds K.mem cuts.new n ds × RowsRead n paths.old.capacity cuts.old.capacity K.holds (map (named text.now) places.now) (drop from text.now) first ps cs result qs ds }
{
    let mut at = from;
    let mut nth = first;
    'rows: while at < text.len() {
        let line = next_line(text, at, nth)?;
        put_line(text, places, line, nth, paths, cuts)?;
        at += line.len() + 1;
        nth += 1;
    }
    Ok(())
}

// Reads the rows of a text into the tables: a label names the lowest item whose place stands for it.
pub fn read_rows<K: SetKind>(
    text: &[u8],
    places: &[LabelPlace],
    paths: &mut Table<K>,
    cuts: &mut Table<K>,
) -> Result<(), RowsFault>
    ensures paths_kept { Kept paths.old paths.new }
    ensures cuts_kept { Kept cuts.old cuts.new }
    ensures reads { (p c : ℕ) (ps cs : List Numbers) → Holds K.mem paths.old p ps → Holds K.mem cuts.old c cs → (qs ds : List Numbers) × Holds K.mem paths.new p qs × Holds K.mem cuts.new c ds × (Past p paths.old.capacity cuts.old.capacity K.holds ps cs → Past p paths.old.capacity cuts.old.capacity K.holds qs ds) × RowsCall p c paths.old.capacity cuts.old.capacity K.holds text.now places.now ps cs result qs ds }
{
    check_counts(paths, cuts, places.len())?;
    if text.len() > MOST_BYTES {
        return Err(RowsFault::TooLong(text.len()));
    }
    let spot = skip_items(text);
    put_rows(text, places, spot.at, spot.nth, paths, cuts)
}
