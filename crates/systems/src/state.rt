// A state: which of a system's items are up.
ghost use Rattle.std.specs.Prelude.{◌≡◌, ℕ, ◌≤◌, false};
ghost use Rattle.sets.specs.Marks.{marked as has_mark};

use sets::{Marks, Mask};

// The marks from the count on are down.
#[derive(Clone, Copy, Debug, PartialEq, Eq)]
pub struct State {
    count: usize,
    marks: Marks,
    ghost few: { count ≤ 256 },
    ghost down: { (k : ℕ) → count ≤ k → has_mark marks k ≡ false },
}

impl State {
    ghost use Rattle.std.specs.Prelude.{if◌then◌else◌, nat_le};
    ghost use Rattle.sets.specs.Sets.{nothing, Same};
    ghost use Rattle.systems.specs.States.{up, marked};
    ghost use Rattle.systems.specs.Systems.{others};

    // All items down; of 0 items if asked for more than 256.
    pub fn new(count: usize) -> State
        ensures count { result.count ≡ (if nat_le count 256 then count else 0) }
        ensures down { Same (up result) nothing }
    {
        let count = if count > 256 { 0 } else { count };
        State {
            count,
            marks: Marks::none(),
        }
    }

    // Which items are up, as marks.
    pub fn marks(&self) -> &Marks
        ensures { Same (has_mark result.now) (up self.now) }
    {
        &self.marks
    }

    pub fn count(&self) -> usize
        ensures { result ≡ self.now.count }
    {
        self.count
    }

    pub fn is_up(&self, item: usize) -> bool
        ensures { result ≡ up self.now item }
    {
        self.marks.has(item)
    }

    // The item up or down; an item outside the count changes nothing.
    pub fn set(&mut self, item: usize, is_up: bool)
        ensures count { self.new.count ≡ self.old.count }
        ensures marks { Same (up self.new) (marked self.old.count item is_up (up self.old)) }
    {
        if item < self.count {
            self.marks.set(item, is_up);
        }
    }

    // The state with every item the other way.
    pub fn flipped(&self) -> State
        ensures count { result.count ≡ self.now.count }
        ensures marks { Same (up result) (others self.now.count (up self.now)) }
    {
        State {
            count: self.count,
            marks: Marks::below(self.count).xor(self.marks),
        }
    }
}
