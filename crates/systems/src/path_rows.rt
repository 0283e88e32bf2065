// The row drawing: path rows.
ghost use Rattle.std.specs.Prelude.{◌≤◌, map, length, Decides};
ghost use Rattle.systems.specs.States.{up};
ghost use Rattle.systems.specs.PathRows.{RowUp, row_structure};

use crate::drawing::Drawing;
use crate::state::State;
use crate::wholly::all_up;
use sets::SetKind;

// It works when one of its rows is up.
#[derive(Clone, Copy, Debug)]
pub struct RowDrawing<'a, K: SetKind> {
    pub items: usize,
    pub rows: &'a [K],
}

// Whether one of the rows is up.
fn some_up<K: SetKind>(rows: &[K], state: &State) -> bool
    requires { length rows.now ≤ 4096 }
    ensures { Decides result (RowUp state.now.count (map K.mem rows.now) (up state.now)) }
{
    rows.iter().any(|row| all_up(row, state))
}

impl<'a, K: SetKind> Drawing for RowDrawing<'a, K> {
    ghost means = { λ d. row_structure d.items (map K.mem d.rows.now) };

    fn item_count(&self) -> usize {
        self.items
    }

    fn works(&self, state: &State) -> bool {
        state.count() == self.items && self.rows.len() <= 4096 && some_up(self.rows, state)
    }
}
