// The items that the labels of a row name.
ghost use Rattle.std.specs.Prelude.{length, map, MatchOption};
ghost use Rattle.sheets.specs.Bytes.{Row};
ghost use Rattle.sheets.specs.Labels.{named};
ghost use Rattle.sheets.specs.Looks.{Found, Lost};

use crate::line::cut_label;
use crate::place::{LabelPlace, find_label};

// The numbers of the items that the labels of a row name, as many of them as there is memory for; nothing if a label names no item.
pub(crate) fn look_up<'a>(
    text: &[u8],
    places: &[LabelPlace],
    row: &[u8],
    memory: &'a mut [usize],
) -> Option<&'a [usize]>
    requires { Row row.now }
    ensures { MatchOption result (Lost (map (named text.now) places.now) row.now) (λ items. Found (map (named text.now) places.now) row.now (length memory.old) items.now) }
{
    let mut rest = row;
    let mut count = 0;
    'labels: while !rest.is_empty() {
        let (label, left) = cut_label(rest)?;
        let item = find_label(text, places, label)?;
        if count < memory.len() {
            memory[count] = item;
        }
        count += 1;
        rest = left;
    }
    Some(&memory[..count.min(memory.len())])
}
