// Marks that spread along the open lines of a drawing, from node 0 on.
ghost use Rattle.std.specs.Prelude.{ℕ, ◌≤◌};

use crate::line::Line;
use crate::lines::LineDrawing;
use crate::state::State;

// The marked nodes of a drawing in a state. The marks are an array, not a vector: they allocate nothing.
#[derive(Drop)]
pub(crate) struct Spread<'a> {
    drawing: &'a LineDrawing<'a>,
    state: &'a State,
    marks: [bool; 256],
    ghost few: { drawing.now.nodes ≤ 256 },
}

impl<'a> Spread<'a> {
    ghost use Rattle.std.specs.Prelude.{◌≡◌, ◌<◌, Decides, ◌==◌, length};
    ghost use Rattle.systems.specs.States.{up};
    ghost use Rattle.systems.specs.Lines.{Walk};
    ghost use Rattle.systems.specs.Marking.{marks_of, Crossed, Passed};

    // Node 0 marked, and no other.
    pub(crate) fn new(drawing: &'a LineDrawing<'a>, state: &'a State) -> Spread<'a>
        requires { drawing.now.nodes ≤ 256 }
        ensures given { (result.drawing.now ≡ drawing.now) × (result.state.now ≡ state.now) }
        ensures first { (k : ℕ) → marks_of result.marks k ≡ (k == 0) }
    {
        let mut marks = [false; 256];
        marks[0] = true;
        Spread {
            drawing,
            state,
            marks,
        }
    }

    // Marks the node at the other end of an open line of which one end is marked, and says whether it did. The state is asked last: the ends
    // of most lines are marked alike.
    fn cross(&mut self, line: &Line) -> bool
        ensures same { (self.new.drawing ≡ self.old.drawing) × (self.new.state ≡ self.old.state) }
        ensures crossed { Crossed self.old.state.now.count self.old.drawing.now.nodes (up self.old.state.now) line.now (marks_of self.old.marks) (marks_of self.new.marks) result }
    {
        if !line.is_within(self.drawing.nodes)
            || self.marks[line.from] == self.marks[line.to]
            || !line.is_open(self.drawing.nodes, self.state)
        {
            return false;
        }
        self.marks[line.from] = true;
        self.marks[line.to] = true;
        true
    }

    // Goes through the lines once, and says whether a node was marked. Not inlined, so that it stays a loop of its own: as one with the loop
    // of `reaches` it takes half as long again.
    #[inline(never)]
    fn pass(&mut self) -> bool
        ensures same { (self.new.drawing ≡ self.old.drawing) × (self.new.state ≡ self.old.state) }
        ensures passed { Passed self.old.state.now.count self.old.drawing.now.nodes self.old.drawing.now.lines.now (up self.old.state.now) (length self.old.drawing.now.lines.now) (marks_of self.old.marks) (marks_of self.new.marks) result }
    {
        let mut more = false;
        for line in self.drawing.lines {
            more |= self.cross(line);
        }
        more
    }

    // Whether a chain of open lines leads from node 0 to the node.
    pub(crate) fn reaches(mut self, node: usize) -> bool
        requires inside { node < self.drawing.now.nodes }
        requires first { (k : ℕ) → marks_of self.marks k ≡ (k == 0) }
        ensures { Decides result (Walk self.entry.state.now.count self.entry.drawing.now.nodes self.entry.drawing.now.lines.now (up self.entry.state.now) node) }
    {
        while self.pass() {}
        self.marks[node]
    }
}
