// Whole runs of calls.
ghost use Rattle.std.specs.Prelude.{◌≡◌, ℕ, ◌<◌, ◌≤◌, min, ◌⊎◌, List, map, length};
ghost use Rattle.sets.specs.Sets.{Numbers};
ghost use Rattle.tables.specs.Memory.{Beyond};
ghost use Rattle.tables.specs.Pasts.{Past};
ghost use Rattle.tables.specs.Tables.{Holds, Kept};
ghost use Rattle.completion.specs.Replays.{Replays};
ghost use Rattle.completion.specs.Runs.{Step};

use crate::call::{Answer, Call, Reply};
use crate::completing::complete;
use crate::refused::Refused;
use duality::audit;
use sets::SetKind;
use systems::Drawing;
use tables::{Row, Table};

// How many calls were made, and how many rows the two tables have then.
#[derive(Clone, Copy, Debug, PartialEq, Eq)]
pub struct Replayed {
    pub made: usize,
    pub paths: usize,
    pub cuts: usize,
}

// Makes one call.
pub(crate) fn step<K: SetKind, D: Drawing>(
    call: &Call,
    drawings: &[D],
    paths: &mut Table<K>,
    cuts: &mut Table<K>,
) -> Reply
    ensures paths_kept { Kept paths.old paths.new }
    ensures cuts_kept { Kept cuts.old cuts.new }
    ensures steps { (n : ℕ) (ps cs : List Numbers) → Past n paths.old.capacity cuts.old.capacity K.holds ps cs → Holds K.mem paths.old n ps → Holds K.mem cuts.old n cs → (qs ds : List Numbers) × Holds K.mem paths.new n qs × Holds K.mem cuts.new n ds × Past n paths.old.capacity cuts.old.capacity K.holds qs ds × Step n paths.old.capacity cuts.old.capacity K.holds (map D.means drawings.now) call.now ps cs result qs ds }
{
    match *call {
        Call::PutPath(items) => Ok(Answer::Removed(paths.put(items)?)),
        Call::PutCut(items) => Ok(Answer::Removed(cuts.put(items)?)),
        Call::StrikePath(row) => {
            paths.strike(row)?;
            Ok(Answer::Struck)
        },
        Call::StrikeCut(row) => {
            cuts.strike(row)?;
            Ok(Answer::Struck)
        },
        Call::Audit => Ok(Answer::Said(audit(paths, cuts)?)),
        Call::Complete(number) => {
            let drawing = drawings.get(number).ok_or(Refused::NoDrawing(number))?;
            complete(paths, cuts, drawing)?;
            Ok(Answer::Done)
        },
    }
}

// Opens two tables for n items, makes the calls one after the other as far as there are places for answers, and hands back each
// answer.
pub fn replay<K: SetKind, D: Drawing>(
    n: usize,
    calls: &[Call],
    drawings: &[D],
    path_memory: &mut [Row<K>],
    cut_memory: &mut [Row<K>],
    answers: &mut [Reply],
) -> Replayed
    ensures made { result.made ≡ min (length calls.now) (length answers.old) }
    ensures behind { Beyond result.made answers.old answers.new }
    ensures permitted { 1 ≤ n → n ≤ K.top → Replays K.mem n (min 4096 (length path_memory.old)) (min 4096 (length cut_memory.old)) K.holds (map D.means drawings.now) calls.now answers.new path_memory.old path_memory.new cut_memory.old cut_memory.new result }
    ensures wrong { (n ≡ 0) ⊎ (K.top < n) → Replays K.mem 0 0 0 K.holds (map D.means drawings.now) calls.now answers.new path_memory.old path_memory.new cut_memory.old cut_memory.new result }
{
    let made = calls.len().min(answers.len());
    let mut paths = Table::open(path_memory, n);
    let mut cuts = Table::open(cut_memory, n);
    // by places: a `zip` of the calls with `iter_mut` is not covered
    for (i, answer) in answers[..made].iter_mut().enumerate() {
        *answer = step(&calls[i], drawings, &mut paths, &mut cuts);
    }
    Replayed {
        made,
        paths: paths.row_count(),
        cuts: cuts.row_count(),
    }
}
