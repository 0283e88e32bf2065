// Whether the items of a set are all up in a state, or all down, and the state in which they alone are up.
ghost use Rattle.std.specs.Prelude.{◌≡◌, ℕ, ◌<◌, ◌≤◌, Decides};
ghost use Rattle.sets.specs.Sets.{Within, Apart};
ghost use Rattle.systems.specs.States.{up};

use crate::state::State;
use sets::SetKind;

// Whether all items of the set are up.
pub fn all_up<K: SetKind>(set: &K, state: &State) -> bool
    ensures { Decides result (Within (K.mem set.now) (up state.now)) }
{
    set.all_marked(state.marks())
}

// Whether all items of the set are down.
pub fn all_down<K: SetKind>(set: &K, state: &State) -> bool
    ensures { Decides result (Apart (K.mem set.now) (up state.now)) }
{
    set.none_marked(state.marks())
}

// The state of n items in which just those of the set are up; of 0 items if asked for more than 256.
pub fn alone_up<K: SetKind>(n: usize, set: &K) -> State
    ensures count { n ≤ 256 → result.count ≡ n }
    ensures many { 256 < n → result.count ≡ 0 }
    ensures marks { (k : ℕ) → k < result.count → up result k ≡ K.mem set.now k }
{
    let mut state = State::new(n);
    let mut from = 0;
    'up: while let Some(item) = set.next(from) {
        if item >= state.count() {
            break;
        }
        state.set(item, true);
        from = item + 1;
    }
    state
}
