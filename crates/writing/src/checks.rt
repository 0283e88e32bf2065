// The checks that a call on two tables and their labels begins with.
ghost use Rattle.writing.specs.Writes.{Checks};

use crate::fault::WriteFault;
use sets::SetKind;
use sheets::{MOST_BYTES, check_counts};
use tables::Table;

// Checks that the tables and the number of labels fit together, and that the text in which the labels lie is not too long.
pub(crate) fn check<K: SetKind>(
    text: &[u8],
    labels: usize,
    paths: &Table<K>,
    cuts: &Table<K>,
) -> Result<(), WriteFault>
    ensures { Checks paths.now.items cuts.now.items text.now labels result }
{
    check_counts(paths, cuts, labels)?;
    if text.len() > MOST_BYTES {
        return Err(WriteFault::TooLong(text.len()));
    }
    Ok(())
}
