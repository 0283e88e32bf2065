// The splits of a search that are still open.
ghost use Rattle.std.specs.Prelude.{◌≤◌};

// A split: its item, and the half being tried, first with the item up and then with it down.
#[derive(Clone, Copy, Debug, PartialEq, Eq)]
pub struct Frame {
    pub item: usize,
    pub up: bool,
}

impl Frame {
    ghost use Rattle.std.specs.Prelude.{◌≡◌};
    ghost use Rattle.duality.specs.Halves.{turned};

    // Turns it to its second half.
    fn turn(&mut self)
        ensures { self.new ≡ turned self.old }
    {
        self.up = false;
    }
}

// A stack of them: the first `depth` frames. An array, not a vector: it allocates nothing and can be copied.
#[derive(Clone, Copy)]
pub struct Splits {
    depth: usize,
    frames: [Frame; 256],
    ghost few: { depth ≤ 256 },
}

impl Splits {
    ghost use Rattle.std.specs.Prelude.{◌≡◌, ◌<◌, ◌≤◌, true, List, [], ◌∷◌, length, MatchOption};
    ghost use Rattle.duality.specs.Halves.{opened, turned};
    ghost use Rattle.duality.specs.declared.splits.Frame.{Frame};

    pub(crate) fn new() -> Splits
        ensures { opened result ≡ [] }
    {
        Splits {
            depth: 0,
            frames: [Frame { item: 0, up: false }; 256],
        }
    }

    // How many there are.
    pub(crate) fn count(&self) -> usize
        ensures { result ≡ length (opened self.now) }
    {
        self.depth
    }

    // One split more, in its first half. None where the stack is full.
    pub(crate) fn push(&mut self, item: usize) -> Option<()>
        ensures { MatchOption result (256 ≤ length (opened self.old)) (λ _. opened self.new ≡ record { item = item; up = true } ∷ opened self.old) }
    {
        if self.depth == self.frames.len() {
            return None;
        }
        self.frames[self.depth] = Frame { item, up: true };
        self.depth += 1;
        Some(())
    }

    // The last split.
    pub(crate) fn last(&self) -> Option<Frame>
        ensures { MatchOption result (opened self.now ≡ []) (λ f. (fs : List Frame) × (opened self.now ≡ f ∷ fs)) }
    {
        self.frames[..self.depth].last().copied()
    }

    // Turns the last split, if there is one, to its second half.
    pub(crate) fn turn_last(&mut self)
        ensures { (f : Frame) (fs : List Frame) → opened self.old ≡ f ∷ fs → opened self.new ≡ turned f ∷ fs }
    {
        // by its place: `last_mut` of a part of the array is not covered in a struct with a ghost field
        if self.depth > 0 {
            self.frames[self.depth - 1].turn();
        }
    }

    // Drops the last split, if there is one.
    pub(crate) fn pop(&mut self)
        ensures { (f : Frame) (fs : List Frame) → opened self.old ≡ f ∷ fs → opened self.new ≡ fs }
    {
        self.depth = self.depth.saturating_sub(1);
    }
}
