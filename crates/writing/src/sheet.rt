// The sheet call: the items with their labels, the paths and the cuts, as a sheet text.
ghost use Rattle.std.specs.Prelude.{◌≡◌, ℕ, ◌+◌, ◌<◌, ◌≤◌, ◌^◌, List, [], ◌∷◌, ◌++◌, map, length, take, slice_index_or, IfOk};
ghost use Rattle.sets.specs.Sets.{Numbers};
ghost use Rattle.tables.specs.Memory.{meant};
ghost use Rattle.tables.specs.Pasts.{Past};
ghost use Rattle.tables.specs.Tables.{Holds};
ghost use Rattle.sheets.specs.Bytes.{item_line, items_text, spaced};
ghost use Rattle.sheets.specs.Labels.{named};
ghost use Rattle.writing.specs.Pages.{Wrote};
ghost use Rattle.writing.specs.SheetTexts.{items_of, labels_at, row_line, lines_of, sheet_text};
ghost use Rattle.writing.specs.Writes.{Outputs, Writes};
ghost use Rattle.writing.specs.RoundTrips.{LabelsRead, ReadsBack};

use crate::checks::check;
use crate::columns::columns;
use crate::fault::WriteFault;
use crate::page::Page;
use sets::SetKind;
use sheets::LabelPlace;
use tables::{Row, Table};

// The label of the item; empty where the item has no place.
pub(crate) fn label_of<'a>(text: &'a [u8], places: &[LabelPlace], item: usize) -> &'a [u8]
    ensures { result.now ≡ slice_index_or (map (named text.now) places.now) item [] }
{
    places.get(item).map_or(&[], |place| place.label(text))
}

// Puts the line of an item.
#[tactic(auto, using(crate::proofs::Lines::length_item_line))]
pub(crate) fn put_item(page: &mut Page, item: usize, label: &[u8])
    requires narrow { item < 1000 }
    requires counted { page.old.len + length (item_line item label.now ++ (10 ∷ [])) < 2 ^ 64 }
    ensures { Wrote page.old page.new (item_line item label.now ++ (10 ∷ [])) }
{
    page.put(b"ITEM ");
    page.put(&columns::<3>(item));
    page.put(b" ");
    page.put(label);
    page.put(b"\n");
}

// Puts the lines of the items.
pub(crate) fn put_items(page: &mut Page, text: &[u8], places: &[LabelPlace])
    requires few { length places.now ≤ 256 }
    requires counted { page.old.len + length (items_text 0 (map (named text.now) places.now)) < 2 ^ 64 }
    ensures { Wrote page.old page.new (items_text 0 (map (named text.now) places.now)) }
{
    for (item, place) in places.iter().enumerate() {
        put_item(page, item, place.label(text));
    }
}

// Puts a space and the label of each item of the row, in rising order.
pub(crate) fn put_labels<K: SetKind>(page: &mut Page, text: &[u8], places: &[LabelPlace], row: &K)
    requires { page.old.len + length (spaced (labels_at (map (named text.now) places.now) (items_of (K.mem row.now)))) < 2 ^ 64 }
    ensures { Wrote page.old page.new (spaced (labels_at (map (named text.now) places.now) (items_of (K.mem row.now)))) }
{
    let mut from = 0;
    'labels: while let Some(item) = row.next(from) {
        page.put(b" ");
        page.put(label_of(text, places, item));
        from = item + 1;
    }
}

// Puts the line of a row, with the head.
pub(crate) fn put_row<K: SetKind>(
    page: &mut Page,
    head: &[u8],
    text: &[u8],
    places: &[LabelPlace],
    row: &K,
)
    requires { page.old.len + length (row_line head.now (map (named text.now) places.now) (K.mem row.now)) < 2 ^ 64 }
    ensures { Wrote page.old page.new (row_line head.now (map (named text.now) places.now) (K.mem row.now)) }
{
    page.put(head);
    put_labels(page, text, places, row);
    page.put(b"\n");
}

// Puts the lines of the rows, each with the head.
pub(crate) fn put_rows<K: SetKind>(
    page: &mut Page,
    head: &[u8],
    text: &[u8],
    places: &[LabelPlace],
    rows: &[Row<K>],
)
    requires { page.old.len + length (lines_of head.now (map (named text.now) places.now) (map (meant K.mem) rows.now)) < 2 ^ 64 }
    ensures { Wrote page.old page.new (lines_of head.now (map (named text.now) places.now) (map (meant K.mem) rows.now)) }
{
    for row in rows {
        put_row(page, head, text, places, row.set());
    }
}

// Puts the whole text.
pub(crate) fn put_sheet<K: SetKind>(
    page: &mut Page,
    text: &[u8],
    places: &[LabelPlace],
    paths: &[Row<K>],
    cuts: &[Row<K>],
)
    requires few { length places.now ≤ 256 }
    requires counted { page.old.len + length (sheet_text (map (named text.now) places.now) (map (meant K.mem) paths.now) (map (meant K.mem) cuts.now)) < 2 ^ 64 }
    ensures { Wrote page.old page.new (sheet_text (map (named text.now) places.now) (map (meant K.mem) paths.now) (map (meant K.mem) cuts.now)) }
{
    put_items(page, text, places);
    put_rows(page, b"PATH", text, places, paths);
    put_rows(page, b"CUTS", text, places, cuts);
}

// Writes the sheet text of the rows, and answers its length.
pub(crate) fn write_rows<K: SetKind>(
    text: &[u8],
    places: &[LabelPlace],
    paths: &[Row<K>],
    cuts: &[Row<K>],
    out: &mut [u8],
) -> Result<usize, WriteFault>
    requires few { length places.now ≤ 256 }
    requires short { length text.now ≤ 65535 }
    requires few_paths { length paths.now ≤ 4096 }
    requires few_cuts { length cuts.now ≤ 4096 }
    ensures { Outputs (sheet_text (map (named text.now) places.now) (map (meant K.mem) paths.now) (map (meant K.mem) cuts.now)) out.old result out.new }
{
    let mut measure = Page::new(&mut []);
    put_sheet(&mut measure, text, places, paths, cuts);
    let len = measure.len();
    if len > out.len() {
        return Err(WriteFault::NoRoom(len));
    }
    put_sheet(&mut Page::new(out), text, places, paths, cuts);
    Ok(len)
}

// Writes the sheet text of the two tables, and answers its length. The labels lie in `text`, at the places.
pub fn write_sheet<K: SetKind>(
    text: &[u8],
    places: &[LabelPlace],
    paths: &Table<K>,
    cuts: &Table<K>,
    out: &mut [u8],
) -> Result<usize, WriteFault>
    ensures writes { (p c : ℕ) (ps cs : List Numbers) → Holds K.mem paths.now p ps → Holds K.mem cuts.now c cs → Writes p c text.now (length places.now) (λ bs. bs ≡ sheet_text (map (named text.now) places.now) ps cs) out.old result out.new }
    ensures reads_back { (n : ℕ) (ps cs : List Numbers) → Past n paths.now.capacity cuts.now.capacity K.holds ps cs → Holds K.mem paths.now n ps → Holds K.mem cuts.now n cs → LabelsRead text.now places.now → IfOk result (λ len. len ≤ 65535 → ReadsBack n paths.now.capacity cuts.now.capacity K.holds (map (named text.now) places.now) ps cs (take len out.new)) }
{
    check(text, places.len(), paths, cuts)?;
    write_rows(text, places, paths.rows(), cuts.rows(), out)
}
