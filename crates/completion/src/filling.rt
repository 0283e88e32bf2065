// Minimal rows added until no state is missed.
ghost use Rattle.std.specs.Prelude.{◌≡◌, ℕ, ◌≤◌, List};
ghost use Rattle.sets.specs.Sets.{Numbers};
ghost use Rattle.systems.specs.States.{up};
ghost use Rattle.systems.specs.Systems.{Works};
ghost use Rattle.systems.specs.Drawings.{WorksIn};
ghost use Rattle.systems.specs.Duals.{dual};
ghost use Rattle.tables.specs.Tables.{Holds, Kept};
ghost use Rattle.duality.specs.Searches.{MissedState};
ghost use Rattle.completion.specs.Minimals.{Minimals};
ghost use Rattle.completion.specs.Fills.{OnlyBlocked, Adds, Learns, Fills};

use crate::dual::Dual;
use crate::fault::{Blocked, CompletionFault};
use crate::offering::offer;
use crate::shrinking::shrink;
use crate::side::Side;
use duality::Search;
use sets::SetKind;
use systems::{Drawing, State};
use tables::Table;

// One more row: a minimal path within the items that are up in a state in which the drawing works, and within which no row lies.
pub(crate) fn add<K: SetKind, D: Drawing>(
    table: &mut Table<K>,
    drawing: &D,
    set: &State,
) -> Result<(), Blocked>
    ensures kept { Kept table.old table.new }
    ensures adds { (n : ℕ) (ps : List Numbers) → 1 ≤ n → Holds K.mem table.old n ps → set.now.count ≡ n → WorksIn (D.means drawing.now) set.now → (Works ps (up set.now) → ⊥) → Minimals n table.old.capacity K.holds (D.means drawing.now) ps → (qs : List Numbers) × Holds K.mem table.new n qs × Adds n table.old.capacity K.holds (D.means drawing.now) ps result qs }
{
    offer(table, &shrink(drawing, set))?;
    Ok(())
}

// One more row for a missed state: a minimal path within its up items if the drawing works there, else a minimal cut within
// its down items.
pub(crate) fn learn<K: SetKind, D: Drawing>(
    paths: &mut Table<K>,
    cuts: &mut Table<K>,
    from_cuts: &Dual<D>,
    missed: &State,
) -> Result<(), CompletionFault>
    ensures paths_kept { Kept paths.old paths.new }
    ensures cuts_kept { Kept cuts.old cuts.new }
    ensures only { OnlyBlocked result }
    ensures learns { (n : ℕ) (ps cs : List Numbers) → 1 ≤ n → Holds K.mem paths.old n ps → Holds K.mem cuts.old n cs → (D.means from_cuts.now.drawing.now).items ≡ n → MissedState n ps cs missed.now → Minimals n paths.old.capacity K.holds (D.means from_cuts.now.drawing.now) ps → Minimals n cuts.old.capacity K.holds (dual (D.means from_cuts.now.drawing.now)) cs → (qs ds : List Numbers) × Holds K.mem paths.new n qs × Holds K.mem cuts.new n ds × Learns n paths.old.capacity cuts.old.capacity K.holds (D.means from_cuts.now.drawing.now) ps cs result qs ds }
{
    if from_cuts.drawing.works(missed) {
        add(paths, from_cuts.drawing, missed).map_err(|blocked| blocked.at(Side::Paths))
    } else {
        add(cuts, from_cuts, &missed.flipped()).map_err(|blocked| blocked.at(Side::Cuts))
    }
}

// Rows are added until no state is missed. Each turn fills a place, so there are no more turns than places.
pub(crate) fn fill<K: SetKind, D: Drawing>(
    paths: &mut Table<K>,
    cuts: &mut Table<K>,
    from_cuts: &Dual<D>,
) -> Result<(), CompletionFault>
    ensures paths_kept { Kept paths.old paths.new }
    ensures cuts_kept { Kept cuts.old cuts.new }
    ensures only { OnlyBlocked result }
    ensures fills { (n : ℕ) (ps cs : List Numbers) → 1 ≤ n → Holds K.mem paths.old n ps → Holds K.mem cuts.old n cs → (D.means from_cuts.now.drawing.now).items ≡ n → Minimals n paths.old.capacity K.holds (D.means from_cuts.now.drawing.now) ps → Minimals n cuts.old.capacity K.holds (dual (D.means from_cuts.now.drawing.now)) cs → (qs ds : List Numbers) × Holds K.mem paths.new n qs × Holds K.mem cuts.new n ds × Fills n paths.old.capacity cuts.old.capacity K.holds (D.means from_cuts.now.drawing.now) ps cs result qs ds }
{
    let mut search = Search::new(paths.item_count());
    let places = paths.capacity() + cuts.capacity();
    for _turn in 0..=places {
        let Some(missed) = search.next_missed(paths.rows(), cuts.rows()) else {
            return Ok(());
        };
        learn(paths, cuts, from_cuts, &missed)?;
    }
    Err(CompletionFault::MoreThanPlaces(Side::Paths))
}
