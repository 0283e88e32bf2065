// The audit of a path table and a cut table.
ghost use Rattle.std.specs.Prelude.{◌≡◌, ℕ, List, map, IfOk, MatchOption, MatchResult, ◌≤◌};
ghost use Rattle.sets.specs.Sets.{Numbers};
ghost use Rattle.systems.specs.Systems.{EachRow, Fails};
ghost use Rattle.tables.specs.Memory.{meant};
ghost use Rattle.tables.specs.Pasts.{Past};
ghost use Rattle.tables.specs.Tables.{Holds};
ghost use Rattle.duality.specs.Pairs.{Pairs, checked};
ghost use Rattle.duality.specs.Verdicts.{Audited};
ghost use Rattle.duality.specs.RowsOf.{IsRow};

use crate::block::{Block, ROOM};
use crate::fault::PairFault;
use crate::rows::some_apart;
use crate::search::Search;
use crate::verdict::Verdict;
use sets::SetKind;
use systems::alone_up;
use tables::{Row, Table};

// Checks the item counts of two tables, and answers the count.
pub fn check_pair<K: SetKind>(paths: &Table<K>, cuts: &Table<K>) -> Result<usize, PairFault>
    ensures checks { Pairs paths.now.items cuts.now.items (checked result) }
    ensures count { IfOk result (λ n. (n ≡ paths.now.items) × (n ≡ cuts.now.items)) }
{
    let n = paths.item_count();
    let m = cuts.item_count();
    if n == 0 {
        return Err(PairFault::ItemCount(n));
    }
    if m == 0 {
        return Err(PairFault::ItemCount(m));
    }
    if n != m {
        return Err(PairFault::CountsDiffer(n, m));
    }
    Ok(n)
}

// How many paths are held against the cuts one by one before blocks of the cuts are made. It may be over by then, and a block has to pay for
// itself: late, and later the more items its cuts have, where one step holds a set against another.
fn alone<K: SetKind>(cuts: &[Row<K>]) -> usize
    ensures { 4 ≤ result }
{
    if K::ceiling() > 64 {
        return 4;
    }
    let items = cuts.first().map_or(0, |cut| cut.set().size());
    items.saturating_mul(24).max(4)
}

// The first path with which some cut has no common item.
pub(crate) fn first_apart<'p, K: SetKind>(
    paths: &'p [Row<K>],
    cuts: &[Row<K>],
) -> Option<&'p Row<K>>
    ensures { MatchOption result (EachRow (map (meant K.mem) paths.now) (λ p. Fails (map (meant K.mem) cuts.now) p → ⊥)) (λ path. IsRow (meant K.mem) paths.now path.now × Fails (map (meant K.mem) cuts.now) (meant K.mem path.now)) }
{
    let (few, others) = paths.split_at(paths.len().min(alone(cuts)));
    if let Some(path) = few.iter().find(|path| some_apart(path, cuts)) {
        return Some(path);
    }
    first_of_many(others, cuts)
}

// The same, with more and more paths at once held against blocks of the cuts, so that what an early answer leaves in vain stays in proportion.
fn first_of_many<'p, K: SetKind>(paths: &'p [Row<K>], cuts: &[Row<K>]) -> Option<&'p Row<K>>
    ensures { MatchOption result (EachRow (map (meant K.mem) paths.now) (λ p. Fails (map (meant K.mem) cuts.now) p → ⊥)) (λ path. IsRow (meant K.mem) paths.now path.now × Fails (map (meant K.mem) cuts.now) (meant K.mem path.now)) }
{
    let mut at_once = (alone(cuts) / 4).max(16);
    let mut rest = paths;
    'turns: while !rest.is_empty() {
        let (some, others) = rest.split_at(rest.len().min(at_once));
        if let Some(path) = first_in_blocks(some, cuts) {
            return Some(path);
        }
        at_once = at_once.saturating_mul(2);
        rest = others;
    }
    None
}

// The same, with all of these paths at once. (Not inlined, so that the memory of a block is made for it alone.)
#[inline(never)]
fn first_in_blocks<'p, K: SetKind>(paths: &'p [Row<K>], cuts: &[Row<K>]) -> Option<&'p Row<K>>
    ensures { MatchOption result (EachRow (map (meant K.mem) paths.now) (λ p. Fails (map (meant K.mem) cuts.now) p → ⊥)) (λ path. IsRow (meant K.mem) paths.now path.now × Fails (map (meant K.mem) cuts.now) (meant K.mem path.now)) }
{
    let mut first = paths.len();
    let mut rest = cuts;
    'holding: while first > 0 && !rest.is_empty() {
        let (cuts, behind) = rest.split_at(rest.len().min(ROOM));
        first = Block::of(cuts)
            .first_apart(&paths[..first])
            .unwrap_or(first);
        rest = behind;
    }
    paths.get(first)
}

// Whether both tables describe the same system; else a state that both cover, or one that neither covers.
pub fn audit<K: SetKind>(paths: &Table<K>, cuts: &Table<K>) -> Result<Verdict, PairFault>
    ensures checks { Pairs paths.now.items cuts.now.items (checked result) }
    ensures audited { (n : ℕ) (ps cs : List Numbers) → Past n paths.now.capacity cuts.now.capacity K.holds ps cs → Holds K.mem paths.now n ps → Holds K.mem cuts.now n cs → MatchResult result (Audited n ps cs) (λ _. n ≡ 0) }
{
    let n = check_pair(paths, cuts)?;
    let path_rows = paths.rows();
    let cut_rows = cuts.rows();
    if let Some(path) = first_apart(path_rows, cut_rows) {
        return Ok(Verdict::Both(alone_up(n, path.set())));
    }
    let missed = Search::new(n).next_missed(path_rows, cut_rows);
    Ok(missed.map_or(Verdict::Same, Verdict::Miss))
}
