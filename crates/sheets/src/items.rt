// The first reading call: the labels of the ITEM lines, into places that the caller lends.
ghost use Rattle.std.specs.Prelude.{◌≡◌, ◌+◌, ◌<◌, ◌≤◌, List, length, drop, Decides, MatchResult, IfOk};
ghost use Rattle.sheets.specs.Bytes.{Bytes};
ghost use Rattle.sheets.specs.Items.{Stops, Fronts, ItemAt, Taken, Refused, ItemsRead, Filled, ItemsCall, names_of};
ghost use Rattle.sheets.specs.declared.line.LineFault.TheVariants.{Bad};

use crate::MOST_BYTES;
use crate::items_fault::ItemsFault;
use crate::line::{Line, LineFault, parse};
use crate::place::{LabelPlace, find_label};
use crate::split::next_line;

// Whether the items end here.
pub(crate) fn stops(rest: &[u8]) -> bool
    ensures { Decides result (Stops rest.now) }
{
    rest.is_empty() || rest.starts_with(b"PATH") || rest.starts_with(b"CUTS")
}

// The label of the ITEM line at `at`, which is to have the number `count`.
pub(crate) fn next_item<'a>(text: &'a [u8], at: usize, count: usize) -> Result<&'a [u8], LineFault>
    requires inside { at ≤ length text.now }
    requires small { count < 1000 }
    ensures { MatchResult result (λ label. ItemAt text.now at count label.now) (λ f. (f ≡ Bad (count + 1)) × ((l : Bytes) → Fronts count (drop at text.now) l → ⊥)) }
{
    let line = next_line(text, at, count + 1)?;
    match parse(line, count + 1)? {
        Line::Item { number, label } => {
            if number == count {
                Ok(label)
            } else {
                Err(LineFault::Bad(count + 1))
            }
        }
        Line::Path(_) | Line::Cuts(_) => Err(LineFault::Bad(count + 1)),
    }
}

// Judges the line at `at`, where `count` items are read: the length of its label, if it is an item to be read.
pub(crate) fn judge_item(
    text: &[u8],
    at: usize,
    count: usize,
    places: &[LabelPlace],
) -> Result<usize, ItemsFault>
    requires inside { at ≤ length text.now }
    requires few { count ≤ 256 }
    requires room { count ≤ length places.now }
    ensures { MatchResult result (Taken text.now at count places.now) (Refused text.now at count places.now) }
{
    let label = next_item(text, at, count)?;
    if count == 256 {
        return Err(ItemsFault::ItemCount(257, 257));
    }
    if count == places.len() {
        return Err(ItemsFault::NoPlace(places.len(), count + 1));
    }
    if let Some(item) = find_label(text, &places[..count], label) {
        return Err(ItemsFault::Repeated(count + 1, item));
    }
    Ok(label.len())
}

// Reads the lines of the items into the places.
pub(crate) fn all_items(text: &[u8], places: &mut [LabelPlace]) -> Result<usize, ItemsFault>
    ensures { (ls : List Bytes) × ItemsRead text.now (length places.old) result ls × Filled places.old places.new ls × IfOk result (λ n. names_of text.now n places.new ≡ ls) }
{
    let mut at = 0;
    let mut count = 0;
    'items: while !stops(&text[at..]) {
        let len = judge_item(text, at, count, places)?;
        places[count] = LabelPlace { start: at + 9, len };
        at += 10 + len;
        count += 1;
    }
    if count == 0 {
        return Err(ItemsFault::ItemCount(0, 0));
    }
    Ok(count)
}

// Reads the labels of the items: how many there are.
pub fn read_items(text: &[u8], places: &mut [LabelPlace]) -> Result<usize, ItemsFault>
    ensures { ItemsCall text.now places.old places.new result }
{
    if text.len() > MOST_BYTES {
        return Err(ItemsFault::TooLong(text.len()));
    }
    all_items(text, places)
}
