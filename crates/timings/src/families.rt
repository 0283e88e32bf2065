// Families of rows and drawings that a search finds hard.
use std::alloc::{AllocError, Global};
use systems::Line;

// Rows as lists of item numbers.
pub type Rows = Vec<Vec<usize>>;

// The most items of a family that is made of all subsets.
const MOST: usize = 20;

// All sets of k of the n items.
pub fn subsets(alloc: Global, n: usize, k: u32) -> Result<Rows, AllocError> {
    let mut rows = Vec::new(alloc);
    if n > MOST {
        return Ok(rows);
    }
    for mask in 0u32..1 << n {
        if mask.count_ones() == k {
            let row = (0..n).filter(|&item| mask >> item & 1 == 1).collect(alloc)?;
            rows.push(row)?;
        }
    }
    Ok(rows)
}

// The n disjoint pairs of 2n items.
pub fn pairs(alloc: Global, n: usize) -> Result<Rows, AllocError> {
    let mut rows = Vec::new(alloc);
    for pair in 0..n {
        let first = pair.saturating_mul(2);
        rows.push([first, first.saturating_add(1)].to_vec(alloc)?)?;
    }
    Ok(rows)
}

// All sets with one item of each pair.
pub fn transversals(alloc: Global, n: usize) -> Result<Rows, AllocError> {
    let mut rows = Vec::new(alloc);
    if n > MOST {
        return Ok(rows);
    }
    for mask in 0usize..1 << n {
        let mut row = Vec::new(alloc);
        for pair in 0..n {
            row.push(pair.saturating_mul(2).saturating_add(mask >> pair & 1))?;
        }
        rows.push(row)?;
    }
    Ok(rows)
}

// The lines of the plane of seven points; they are the smallest sets that meet each line, too.
const PLANE: [[usize; 3]; 7] = [
    [0, 1, 2],
    [0, 3, 4],
    [0, 5, 6],
    [1, 3, 5],
    [1, 4, 6],
    [2, 3, 6],
    [2, 4, 5],
];

// Three planes that are all needed: a line of each.
pub fn plane_paths(alloc: Global) -> Result<Rows, AllocError> {
    let mut rows = Vec::new(alloc);
    for first in PLANE {
        for second in PLANE {
            for third in PLANE {
                let mut row = first.to_vec(alloc)?;
                for item in second {
                    row.push(item.saturating_add(7))?;
                }
                for item in third {
                    row.push(item.saturating_add(14))?;
                }
                rows.push(row)?;
            }
        }
    }
    Ok(rows)
}

// A line of one of them.
pub fn plane_cuts(alloc: Global) -> Result<Rows, AllocError> {
    let mut rows = Vec::new(alloc);
    for from in [0usize, 7, 14] {
        for line in PLANE {
            let mut row = Vec::new(alloc);
            for item in line {
                row.push(item.saturating_add(from))?;
            }
            rows.push(row)?;
        }
    }
    Ok(rows)
}

// A square of k by k nodes, with a line between each two that stand side by side or one above the other.
pub fn grid(alloc: Global, k: usize) -> Result<Vec<Line>, AllocError> {
    let mut lines = Vec::new(alloc);
    for y in 0..k {
        for x in 0..k {
            let from = y.saturating_mul(k).saturating_add(x);
            if x + 1 < k {
                let item = lines.len();
                let to = from.saturating_add(1);
                lines.push(Line { from, to, item })?;
            }
            if y + 1 < k {
                let item = lines.len();
                let to = from.saturating_add(k);
                lines.push(Line { from, to, item })?;
            }
        }
    }
    Ok(lines)
}
