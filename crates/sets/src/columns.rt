// Columns: for each number below 256 the places of the sets that have it, of at most 256 sets.
ghost use Rattle.std.specs.Prelude.{◌≡◌, ℕ, ◌&&◌, ◌==◌, cond, nat_lt, true};
ghost use Rattle.sets.specs.Sets.{nothing, Same};
ghost use Rattle.sets.specs.Masks.{low_marked};
ghost use Rattle.sets.specs.Columns.{column};

use crate::marks::Marks;

#[derive(Clone, Copy)]
pub struct Columns {
    columns: [Marks; 256],
}

impl Columns {
    // No place is in a column.
    pub fn none() -> Columns
        ensures { (k : ℕ) → Same (column result k) nothing }
    {
        let unmarked = Marks::none();
        Columns {
            columns: [unmarked; 256],
        }
    }

    // Puts the place into the number's column; a number or a place from 256 on changes nothing.
    pub fn put(&mut self, k: usize, place: usize)
        ensures { (i j : ℕ) → column self.new i j ≡ cond ((nat_lt k 256 && i == k) && (nat_lt place 256 && j == place)) true (column self.old i j) }
    {
        if k >= 256 {
            return;
        }
        self.columns[k].set(place, true);
    }

    // The number's column.
    pub fn of(&self, k: usize) -> Marks
        ensures { Same (low_marked result) (column self.now k) }
    {
        if k < 256 {
            self.columns[k]
        } else {
            Marks::none()
        }
    }
}
