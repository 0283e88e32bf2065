// Whether two tables and the labels of their items have one count.
ghost use Rattle.sheets.specs.Counts.{Counts};

use duality::{PairFault, check_pair};
use sets::SetKind;
use tables::Table;

// Checks the item counts of the tables, and then theirs against the number of labels.
pub fn check_counts<K: SetKind>(
    paths: &Table<K>,
    cuts: &Table<K>,
    labels: usize,
) -> Result<(), PairFault>
    ensures { Counts paths.now.items cuts.now.items labels result }
{
    let n = check_pair(paths, cuts)?;
    if n != labels {
        return Err(PairFault::CountsDiffer(n, labels));
    }
    Ok(())
}
