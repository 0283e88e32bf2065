// A line of a drawing.
ghost use Rattle.std.specs.Prelude.{◌<◌, Decides};
ghost use Rattle.systems.specs.States.{up};
ghost use Rattle.systems.specs.Lines.{Open};

use crate::state::State;

// It joins two nodes, either way, and has an item.
#[derive(Clone, Copy, Debug, PartialEq, Eq)]
pub struct Line {
    pub from: usize,
    pub to: usize,
    pub item: usize,
}

impl Line {
    // Whether the line names no node out of range.
    pub(crate) fn is_within(&self, nodes: usize) -> bool
        ensures { Decides result ((self.now.from < nodes) × (self.now.to < nodes)) }
    {
        self.from < nodes && self.to < nodes
    }

    // Whether the line names no node and no item out of range, and its item is up.
    pub(crate) fn is_open(&self, nodes: usize, state: &State) -> bool
        ensures { Decides result (Open state.now.count nodes (up state.now) self.now) }
    {
        self.is_within(nodes) && state.is_up(self.item)
    }
}
