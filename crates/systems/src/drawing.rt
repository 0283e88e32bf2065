// What every drawing means and answers.
ghost use Rattle.std.specs.Prelude.{◌≡◌, Decides};
ghost use Rattle.systems.specs.Systems.{Structure};
ghost use Rattle.systems.specs.Drawings.{WorksIn};

use crate::state::State;

// A drawing means a structure function: its item count, and the states of that count in which the system works.
pub trait Drawing {
    ghost means: { Self → Structure };

    fn item_count(&self) -> usize
        ensures { result ≡ (means self.now).items };

    // Whether the system works in the state; no for a state of another count.
    fn works(&self, state: &State) -> bool
        ensures { Decides result (WorksIn (means self.now) state.now) };
}
