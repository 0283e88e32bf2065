// A drawing seen from the cuts.
ghost use Rattle.std.specs.Prelude.{◌≡◌};
ghost use Rattle.systems.specs.Duals.{dual};

use systems::{Drawing, State};

// It works in a state if the drawing does not work with every item the other way: its minimal paths are the minimal cuts of the drawing.
// The item count is kept, so that the drawing is asked for it once.
#[derive(Drop)]
pub(crate) struct Dual<'d, D: Drawing> {
    pub(crate) drawing: &'d D,
    pub(crate) items: usize,
    ghost counted: { items ≡ (D.means drawing.now).items },
}

impl<'d, D: Drawing> Drawing for Dual<'d, D> {
    ghost means = { λ d. dual (D.means d.drawing.now) };

    fn item_count(&self) -> usize {
        self.items
    }

    fn works(&self, state: &State) -> bool {
        state.count() == self.items && !self.drawing.works(&state.flipped())
    }
}
