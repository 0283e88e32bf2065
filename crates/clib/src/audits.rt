// An audit of rows in numbers.
ghost use Rattle.std.specs.Prelude.{◌≡◌, ℕ, List, length, slice_index, EachIndex, if◌then◌else◌, MatchResult};
ghost use Rattle.sets.specs.Sets.{Numbers};
ghost use Rattle.systems.specs.States.{up};
ghost use Rattle.tables.specs.Pasts.{Past};
ghost use Rattle.tables.specs.Tables.{Holds};
ghost use Rattle.duality.specs.Verdicts.{Audited};
ghost use Rattle.clib.specs.Fills.{cut};
ghost use Rattle.clib.specs.AuditCalls.{KindAudit, AuditCall};

use crate::filling::{Listed, fill};
use crate::memory::rows;
use duality::{PairFault, Verdict, audit};
use sets::{ListSet, SetKind, WordSet};
use systems::State;
use tables::{Row, Table, TableFault};

// Audits once, and again as often as is asked for, so that its time can be measured.
pub(crate) fn audit_often<K: SetKind>(
    paths: &Table<K>,
    cuts: &Table<K>,
    times: usize,
) -> Result<Verdict, PairFault>
    ensures { (n : ℕ) (ps cs : List Numbers) → Past n paths.now.capacity cuts.now.capacity K.holds ps cs → Holds K.mem paths.now n ps → Holds K.mem cuts.now n cs → MatchResult result (Audited n ps cs) (λ _. n ≡ 0) }
{
    let mut verdict = audit(paths, cuts)?;
    for _ in 1..times {
        verdict = audit(paths, cuts)?;
    }
    Ok(verdict)
}

// The rows put into fresh tables of one kind, and these audited.
pub(crate) fn audit_rows<K: SetKind>(
    items: usize,
    paths: &Listed,
    cuts: &Listed,
    times: usize,
    path_memory: &mut [Row<K>],
    cut_memory: &mut [Row<K>],
) -> Result<Verdict, TableFault>
    requires path_places { length path_memory.old ≡ 1000 }
    requires cut_places { length cut_memory.old ≡ 1000 }
    ensures { KindAudit K.top K.holds items (cut paths.now.items.now paths.now.lens.now) (cut cuts.now.items.now cuts.now.lens.now) result }
{
    Table::<K>::judge(items)?;
    let mut path_table = Table::open(path_memory, items);
    let mut cut_table = Table::open(cut_memory, items);
    fill(&mut path_table, paths)?;
    fill(&mut cut_table, cuts)?;
    match audit_often(&path_table, &cut_table, times) {
        Ok(verdict) => Ok(verdict),
        Err(_) => unreachable!(),
    }
}

// Writes the marks of a state: 1 for an item that is up, else 0.
pub(crate) fn mark(state: &State, marks: &mut [u8])
    ensures { EachIndex marks.new (λ k. slice_index marks.new k ≡ (if up state.now k then 1 else 0)) }
{
    for (item, mark) in marks.iter_mut().enumerate() {
        *mark = u8::from(state.is_up(item));
    }
}

// The verdict on rows, in words for the kind 0 and else in lists: 0 SAME, 1 MISS and 2 BOTH, with the marks of the state, or minus the number
// of the refusal. The rows of a table are the items of all, one row after the other, and how many each has.
#[unsafe(no_mangle)]
pub extern "C" fn gomzietis_audit(
    kind: u32,
    items: usize,
    path_items: &[usize],
    path_lens: &[usize],
    cut_items: &[usize],
    cut_lens: &[usize],
    times: usize,
    marks: &mut [u8],
) -> i32
    ensures { AuditCall kind items (cut path_items.now path_lens.now) (cut cut_items.now cut_lens.now) marks.old result marks.new }
{
    let paths = Listed {
        items: path_items,
        lens: path_lens,
    };
    let cuts = Listed {
        items: cut_items,
        lens: cut_lens,
    };
    let found = if kind == 0 {
        audit_rows::<WordSet>(items, &paths, &cuts, times, &mut rows(), &mut rows())
    } else {
        audit_rows::<ListSet>(items, &paths, &cuts, times, &mut rows(), &mut rows())
    };
    match found {
        Ok(Verdict::Same) => 0,
        Ok(Verdict::Miss(state)) => {
            mark(&state, marks);
            1
        }
        Ok(Verdict::Both(state)) => {
            mark(&state, marks);
            2
        }
        Err(fault) => -(fault.number() as i32),
    }
}
