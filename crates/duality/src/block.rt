// At most 256 cuts, held against a path all at once.
ghost use Rattle.std.specs.Prelude.{◌<◌, ◌≤◌, List, map, length, slice_index_or, Decides, MatchOption};
ghost use Rattle.sets.specs.Sets.{Numbers, nothing};
ghost use Rattle.systems.specs.Systems.{Fails, EachRow};
ghost use Rattle.tables.specs.Memory.{meant};
ghost use Rattle.duality.specs.Blocks.{Holds};

use sets::{Columns, Marks, Mask, SetKind};
use tables::Row;

// How many cuts a block has room for.
pub(crate) const ROOM: usize = 256;

// Which of the cuts have an item, for each item, and the places of all of them.
#[derive(Drop)]
pub struct Block {
    columns: Columns,
    places: Marks,
}

impl Block {
    pub(crate) fn of<K: SetKind>(cuts: &[Row<K>]) -> Block
        requires { length cuts.now ≤ 256 }
        ensures { Holds (map (meant K.mem) cuts.now) result }
    {
        let mut columns = Columns::none();
        let mut places = Marks::none();
        for place in 0..cuts.len() {
            cuts[place].set().put_in(&mut columns, place);
            places.set(place, true);
        }
        Block { columns, places }
    }

    // Whether some cut has no item of the row.
    fn some_apart<K: SetKind>(&self, row: &Row<K>) -> bool
        ensures { (cuts : List Numbers) → Holds cuts self.now → Decides result (Fails cuts (meant K.mem row.now)) }
    {
        let missed = self.places.without(row.set().join(&self.columns));
        missed.lowest().is_some()
    }

    // Some row with which some cut has no common item, if there is one.
    pub(crate) fn first_apart<K: SetKind>(&self, rows: &[Row<K>]) -> Option<usize>
        ensures { (cuts : List Numbers) → Holds cuts self.now → MatchOption result (EachRow (map (meant K.mem) rows.now) (λ p. Fails cuts p → ⊥)) (λ row. (row < length (map (meant K.mem) rows.now)) × Fails cuts (slice_index_or (map (meant K.mem) rows.now) row nothing)) }
    {
        rows.iter().position(|row| self.some_apart(row))
    }
}
