// The places of a table's memory, and the rows in the first of them.
ghost use Rattle.std.specs.Prelude.{◌≡◌, ℕ, ◌-◌, ◌<◌, ◌≤◌, map, length, MatchOption};
ghost use Rattle.std.specs.List.{remove, AllWithin};
ghost use Rattle.sets.specs.Sets.{nothing, Below};
ghost use Rattle.tables.specs.Memory.{meant, Standing};
ghost use Rattle.tables.specs.Rows.{ContainsNone, LowestContained, staying};

use crate::row::Row;
use sets::SetKind;

// Empties the places.
pub(crate) fn clear<K: SetKind>(places: &mut [Row<K>])
    ensures long { length places.new ≡ length places.old }
    ensures empty { AllWithin (λ place. meant K.mem place ≡ nothing) places.new 0 (length places.old) }
{
    places.fill_with(|| Row::empty());
}

// Removes a row: the later ones move up, and the place that falls free is emptied.
pub(crate) fn close_up<K: SetKind>(rows: &mut [Row<K>], row: usize)
    requires { row < length rows.old }
    ensures long { length rows.new ≡ length rows.old }
    ensures others { Standing (meant K.mem) rows.new (length rows.old) (length rows.old - 1) (remove (map (meant K.mem) rows.old) row) }
{
    let last = rows.len() - 1;
    rows[row..].rotate_left(1);
    rows[last] = Row::empty();
}

// The lowest row that `row` contains.
pub(crate) fn lowest_contained<K: SetKind>(rows: &[Row<K>], row: &K) -> Option<usize>
    ensures { MatchOption result (ContainsNone (map (meant K.mem) rows.now) (K.mem row.now)) (LowestContained (map (meant K.mem) rows.now) (K.mem row.now)) }
{
    rows.iter().position(|held| held.set.within(row))
}

// Removes each row that contains `row`, and answers how many stay: each of them moves once, to its final place, and the places that fall free
// are emptied. (A loop by places: a lent slice has no `retain`, and rows are not copied.)
pub(crate) fn keep_others<K: SetKind>(rows: &mut [Row<K>], row: &K) -> usize
    ensures long { length rows.new ≡ length rows.old }
    ensures fewer { result ≤ length rows.old }
    ensures whole { result ≡ length rows.old → rows.new ≡ rows.old }
    ensures others { (n : ℕ) → Below n (K.mem row.now) → Standing (meant K.mem) rows.new (length rows.old) result (staying n (map (meant K.mem) rows.old) (K.mem row.now)) }
{
    let mut stay = 0;
    for i in 0..rows.len() {
        if !row.within(&rows[i].set) {
            rows.swap(stay, i);
            stay += 1;
        }
    }
    clear(&mut rows[stay..]);
    stay
}
