// The completion of two tables from a drawing.
ghost use Rattle.std.specs.Prelude.{ℕ, List};
ghost use Rattle.sets.specs.Sets.{Numbers};
ghost use Rattle.tables.specs.Pasts.{Past};
ghost use Rattle.tables.specs.Tables.{Holds, Kept, Unchanged};
ghost use Rattle.completion.specs.Completions.{Counts, Completed, Untouched, completion_reply};

use crate::dual::Dual;
use crate::fault::CompletionFault;
use crate::filling::fill;
use crate::side::Side;
use crate::tightening::{first_unborne, tighten};
use duality::{PairFault, check_pair};
use sets::SetKind;
use systems::Drawing;
use tables::Table;

// Fills both tables with the minimal paths and the minimal cuts of the drawing.
pub fn complete<K: SetKind, D: Drawing>(
    paths: &mut Table<K>,
    cuts: &mut Table<K>,
    drawing: &D,
) -> Result<(), CompletionFault>
    ensures paths_kept { Kept paths.old paths.new }
    ensures cuts_kept { Kept cuts.old cuts.new }
    ensures counts { Counts paths.old.items cuts.old.items (D.means drawing.now).items (completion_reply result) }
    ensures untouched { Untouched result (Unchanged paths.old paths.new × Unchanged cuts.old cuts.new) }
    ensures completes { (n : ℕ) (ps cs : List Numbers) → Past n paths.old.capacity cuts.old.capacity K.holds ps cs → Holds K.mem paths.old n ps → Holds K.mem cuts.old n cs → (qs ds : List Numbers) × Holds K.mem paths.new n qs × Holds K.mem cuts.new n ds × Completed n paths.old.capacity cuts.old.capacity K.holds (D.means drawing.now) ps cs (completion_reply result) qs ds }
{
    let n = check_pair(paths, cuts)?;
    let m = drawing.item_count();
    if m != n {
        return Err(PairFault::CountsDiffer(n, m).into());
    }
    let dual = Dual { drawing, items: m };
    if let Some(row) = first_unborne(paths, drawing) {
        return Err(CompletionFault::NotBorneOut(Side::Paths, row));
    }
    if let Some(row) = first_unborne(cuts, &dual) {
        return Err(CompletionFault::NotBorneOut(Side::Cuts, row));
    }
    tighten(paths, drawing);
    tighten(cuts, &dual);
    fill(paths, cuts, &dual)
}
