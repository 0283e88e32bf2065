// A row made from a list of item numbers.
ghost use Rattle.std.specs.Prelude.{◌≡◌, length, MatchResult};
ghost use Rattle.sets.specs.Sets.{listed};
ghost use Rattle.tables.specs.Calls.{Pass, ItemRefused};
ghost use Rattle.tables.specs.Refusals.{table_refusal};

use crate::fault::TableFault;
use sets::SetKind;

// The row with these items, of a table of n items, or the fault of the first item that does not pass.
pub(crate) fn gather<K: SetKind>(items: &[usize], n: usize) -> Result<K, TableFault>
    ensures { MatchResult result (λ x. Pass n K.holds items.now (length items.now) × (K.mem x ≡ listed items.now)) (λ f. ItemRefused n K.holds items.now (table_refusal f).number (table_refusal f).values) }
{
    let mut row = K::empty();
    for (i, &item) in items.iter().enumerate() {
        if item >= n {
            return Err(TableFault::NoSuchItem(i));
        }
        if row.member(item) {
            return Err(TableFault::Repeated(i));
        }
        row.insert(item).map_err(|_| TableFault::CannotHold(i))?;
    }
    Ok(row)
}
