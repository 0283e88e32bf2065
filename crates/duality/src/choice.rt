// The item by which a half is split again.
ghost use Rattle.std.specs.Prelude.{◌≡◌, List, length, MatchOption};
ghost use Rattle.sets.specs.Sets.{Numbers, NoneFrom};
ghost use Rattle.duality.specs.Shares.{Tallied, Leads};

use crate::tally::most;
use sets::Mask;

// The lowest of the items that stand in the largest share of the paths or of the cuts, of which there are so many and which have these
// planes; both shares are held against each other over the common denominator.
pub(crate) fn choose<M: Mask>(
    items: M,
    paths: usize,
    path_planes: &[M],
    cuts: usize,
    cut_planes: &[M],
) -> Option<usize>
    requires paths { length path_planes.now ≡ 13 }
    requires cuts { length cut_planes.now ≡ 13 }
    ensures { (ps cs : List Numbers) → length ps ≡ paths → length cs ≡ cuts → Tallied M.bits ps path_planes.now → Tallied M.bits cs cut_planes.now → MatchOption result (NoneFrom (M.bits items) 0) (Leads ps cs (M.bits items)) }
{
    let (path_count, in_paths) = most(path_planes, paths, items);
    let (cut_count, in_cuts) = most(cut_planes, cuts, items);
    let of_paths = path_count as u128 * cuts as u128;
    let of_cuts = cut_count as u128 * paths as u128;
    let leading = if of_paths > of_cuts {
        in_paths
    } else if of_paths < of_cuts {
        in_cuts
    } else {
        in_paths.or(in_cuts)
    };
    leading.lowest()
}
