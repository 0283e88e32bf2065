// Rows that give way to minimal ones.
ghost use Rattle.std.specs.Prelude.{◌≡◌, ℕ, ◌<◌, ◌≤◌, List, length, slice_index_or, MatchOption};
ghost use Rattle.sets.specs.Sets.{Numbers, nothing, Below};
ghost use Rattle.systems.specs.States.{up};
ghost use Rattle.systems.specs.Systems.{MinimalPath, ProperSubset, EachRow};
ghost use Rattle.tables.specs.Rows.{Sound};
ghost use Rattle.tables.specs.Tables.{Holds, Kept};
ghost use Rattle.completion.specs.Minimals.{Smaller, Tightened};
ghost use Rattle.completion.specs.Offers.{Replaced};
ghost use Rattle.completion.specs.Completions.{PathBorne, FirstNot};

use crate::offering::offer;
use crate::shrinking::shrink;
use sets::SetKind;
use systems::{Drawing, State, all_up, alone_up};
use tables::Table;

// Whether the drawing, of n items, works with the set of a row alone up.
fn bears_out<K: SetKind, D: Drawing>(drawing: &D, n: usize, set: &K) -> bool
    ensures { (D.means drawing.now).items ≡ n → (D.means drawing.now).items ≤ 256 → Below (D.means drawing.now).items (K.mem set.now) → result ≡ (D.means drawing.now).works (K.mem set.now) }
{
    drawing.works(&alone_up(n, set))
}

// The first row that the drawing does not bear out.
pub(crate) fn first_unborne<K: SetKind, D: Drawing>(table: &Table<K>, drawing: &D) -> Option<usize>
    ensures { (n : ℕ) (ps : List Numbers) → Holds K.mem table.now n ps → Sound n table.now.capacity K.holds ps → (D.means drawing.now).items ≡ n → MatchOption result (EachRow ps (PathBorne (D.means drawing.now))) (FirstNot (PathBorne (D.means drawing.now)) ps) }
{
    let n = table.item_count();
    table
        .rows()
        .iter()
        .position(|row| !bears_out(drawing, n, row.set()))
}

// A minimal set that is less than the set of a row, unless that is minimal itself; the drawing has n items.
fn smaller<K: SetKind, D: Drawing>(drawing: &D, n: usize, set: &K) -> Option<State>
    ensures { (D.means drawing.now).items ≡ n → (D.means drawing.now).items ≤ 256 → Below (D.means drawing.now).items (K.mem set.now) → PathBorne (D.means drawing.now) (K.mem set.now) → MatchOption result (MinimalPath (D.means drawing.now) (K.mem set.now)) (Smaller (D.means drawing.now) (K.mem set.now)) }
{
    let least = shrink(drawing, &alone_up(n, set));
    if all_up(set, &least) {
        None
    } else {
        Some(least)
    }
}

// Puts a set that is less than the row, which removes the row; where another row lies within the set, the row is struck. Answers
// how many rows are gone.
fn replace<K: SetKind>(table: &mut Table<K>, row: usize, set: &State) -> usize
    ensures kept { Kept table.old table.new }
    ensures some { 1 ≤ result }
    ensures replaces { (n : ℕ) (ps : List Numbers) → 1 ≤ n → Holds K.mem table.old n ps → Sound n table.old.capacity K.holds ps → set.now.count ≡ n → row < length ps → ProperSubset (up set.now) (slice_index_or ps row nothing) → (qs : List Numbers) × Holds K.mem table.new n qs × Replaced n table.old.capacity K.holds ps row (up set.now) result qs }
{
    if let Ok(gone) = offer(table, set) {
        gone.max(1)
    } else {
        // the row is there where the premises of `replaces` hold, and elsewhere nothing is promised of the rows
        let _ = table.strike(row);
        1
    }
}

// Each row gives way to a minimal one within it, and rows that come out twice stay once.
pub(crate) fn tighten<K: SetKind, D: Drawing>(table: &mut Table<K>, drawing: &D)
    ensures kept { Kept table.old table.new }
    ensures tightens { (n : ℕ) (ps : List Numbers) → 1 ≤ n → Holds K.mem table.old n ps → Sound n table.old.capacity K.holds ps → (D.means drawing.now).items ≡ n → EachRow ps (PathBorne (D.means drawing.now)) → (qs : List Numbers) × Holds K.mem table.new n qs × Tightened n table.old.capacity K.holds (D.means drawing.now) ps qs }
{
    let n = table.item_count();
    // the rows before `at` are minimal, and so are those from `end` on, which were put here; by number, since the table changes
    let mut at = 0;
    let mut end = table.row_count();
    while at < end {
        let Ok(set) = table.row(at) else {
            return;
        };
        if let Some(least) = smaller(drawing, n, set) {
            end = end.saturating_sub(replace(table, at, &least));
        } else {
            at += 1;
        }
    }
}
