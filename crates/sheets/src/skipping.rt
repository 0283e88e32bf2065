// The leading lines that begin with ITEM.
ghost use Rattle.sheets.specs.Skips.{Skipped};

use crate::split::next_line;

// Where a line stands, and its number.
#[derive(Clone, Copy, Debug, PartialEq, Eq)]
pub(crate) struct Spot {
    pub(crate) at: usize,
    pub(crate) nth: usize,
}

// The first line that does not begin with ITEM.
pub(crate) fn skip_items(text: &[u8]) -> Spot
    ensures { Skipped text.now result }
{
    let mut at = 0;
    let mut nth = 1;
    'items: while text[at..].starts_with(b"ITEM") {
        let Ok(line) = next_line(text, at, nth) else {
            return Spot {
                at: text.len(),
                nth: nth + 1,
            };
        };
        at += line.len() + 1;
        nth += 1;
    }
    Spot { at, nth }
}
