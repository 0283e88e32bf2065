// The line drawing: nodes, and lines between them.
ghost use Rattle.systems.specs.Lines.{line_structure};

use crate::drawing::Drawing;
use crate::line::Line;
use crate::spread::Spread;
use crate::state::State;

// It works when a chain of lines whose items are up leads from node 0 to the last node.
#[derive(Clone, Copy, Debug, PartialEq, Eq)]
pub struct LineDrawing<'a> {
    pub items: usize,
    pub nodes: usize,
    pub lines: &'a [Line],
}

impl<'a> Drawing for LineDrawing<'a> {
    ghost means = { λ d. line_structure d.items d.nodes d.lines.now };

    fn item_count(&self) -> usize {
        self.items
    }

    fn works(&self, state: &State) -> bool {
        if state.count() != self.items {
            return false;
        }
        if self.nodes == 0 || self.nodes > 256 || self.lines.len() > 1024 {
            return false;
        }
        Spread::new(self, state).reaches(self.nodes - 1)
    }
}
