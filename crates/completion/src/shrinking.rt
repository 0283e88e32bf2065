// Minimal sets within sets in which a drawing works.
ghost use Rattle.std.specs.Prelude.{◌≡◌};
ghost use Rattle.sets.specs.Sets.{Within};
ghost use Rattle.systems.specs.States.{up};
ghost use Rattle.systems.specs.Systems.{MinimalPath};
ghost use Rattle.systems.specs.Drawings.{WorksIn};

use systems::{Drawing, State};

// A minimal path within the items that are up, found item by item.
pub(crate) fn shrink<D: Drawing>(drawing: &D, set: &State) -> State
    ensures count { result.count ≡ set.now.count }
    ensures within { Within (up result) (up set.now) }
    ensures minimal { WorksIn (D.means drawing.now) set.now → MinimalPath (D.means drawing.now) (up result) }
{
    let mut least = *set;
    for item in 0..set.count() {
        if least.is_up(item) {
            least.set(item, false);
            if !drawing.works(&least) {
                least.set(item, true);
            }
        }
    }
    least
}
