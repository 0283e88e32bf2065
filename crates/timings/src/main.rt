// Audits and completions of families that a search finds hard. With the argument --times it says how long each took, and with
// --all it also completes those that take minutes.
#![tactic(auto)]

mod families;

use completion::complete;
use duality::audit;
use families::Rows;
use sets::{ListSet, SetKind, WordSet};
use std::alloc::{AllocError, Global};
use std::rt::Clock;
use std::time::Instant;
use std::{env, io};
use systems::{Drawing, LineDrawing, RowDrawing};
use tables::table::MOST_ROWS;
use tables::{Row, Table};

// Row memory of the most rows that a table can have.
fn memory<K: SetKind>(alloc: Global) -> Result<Vec<Row<K>>, AllocError> {
    (0..MOST_ROWS).map(|_| Row::empty()).collect(alloc)
}

// Says how long it took, if that is asked for, and ends the line.
fn took(rt: &(impl Print + Clock), since: &Instant, times: bool) -> io::Result<()> {
    if times {
        let micros = since.elapsed(rt)?.as_micros();
        print!(rt; ", {micros} us")?;
    }
    println!(rt; "")
}

// Says which of the two kinds it is, by its ceiling.
fn say_kind<K: SetKind, R: Print>(rt: &R) -> io::Result<()> {
    if K::ceiling() == 64 {
        print!(rt; "words, ")
    } else {
        print!(rt; "lists, ")
    }
}

fn audited<K: SetKind>(
    rt: &(impl Print + Clock + AllocGlobal),
    name: &str,
    items: usize,
    rows: (&Rows, &Rows),
    times: bool,
) -> io::Result<()> {
    let mut path_memory = memory::<K>(rt.alloc())?;
    let mut cut_memory = memory::<K>(rt.alloc())?;
    let mut paths = Table::open(path_memory.as_mut_slice(), items);
    let mut cuts = Table::open(cut_memory.as_mut_slice(), items);
    for row in rows.0 {
        let _ = paths.put(row.as_slice());
    }
    for row in rows.1 {
        let _ = cuts.put(row.as_slice());
    }
    say_kind::<K, _>(rt)?;
    let start = Instant::now(rt)?;
    match audit(&paths, &cuts) {
        Ok(verdict) => print!(rt;
            "{name}: {} paths, {} cuts: {verdict}",
            paths.row_count(),
            cuts.row_count()
        )?,
        Err(fault) => print!(rt; "{name}: {fault}")?,
    }
    took(rt, &start, times)
}

// Audited with sets in words and with sets in lists.
fn both(
    rt: &(impl Print + Clock + AllocGlobal),
    name: &str,
    items: usize,
    paths: &Rows,
    cuts: &Rows,
    times: bool,
) -> io::Result<()> {
    audited::<WordSet>(rt, name, items, (paths, cuts), times)?;
    audited::<ListSet>(rt, name, items, (paths, cuts), times)
}

fn completed<D: Drawing>(
    rt: &(impl Print + Clock + AllocGlobal),
    name: &str,
    drawing: &D,
    times: bool,
) -> io::Result<()> {
    let items = drawing.item_count();
    let mut path_memory = memory::<WordSet>(rt.alloc())?;
    let mut cut_memory = memory::<WordSet>(rt.alloc())?;
    let mut paths = Table::open(path_memory.as_mut_slice(), items);
    let mut cuts = Table::open(cut_memory.as_mut_slice(), items);
    let start = Instant::now(rt)?;
    match complete(&mut paths, &mut cuts, drawing) {
        Ok(()) => print!(rt;
            "{name}: {} paths, {} cuts: DONE",
            paths.row_count(),
            cuts.row_count()
        )?,
        Err(fault) => print!(rt; "{name}: {fault}")?,
    }
    took(rt, &start, times)
}

fn audits(rt: &(impl Print + Clock + AllocGlobal), times: bool) -> io::Result<()> {
    let alloc = rt.alloc();
    both(
        rt,
        "9 pairs and what meets each",
        18,
        &families::transversals(alloc, 9)?,
        &families::pairs(alloc, 9)?,
        times,
    )?;
    both(
        rt,
        "5 of 11 and 7 of 11",
        11,
        &families::subsets(alloc, 11, 5)?,
        &families::subsets(alloc, 11, 7)?,
        times,
    )?;
    both(
        rt,
        "three planes of seven points",
        21,
        &families::plane_paths(alloc)?,
        &families::plane_cuts(alloc)?,
        times,
    )
}

// A grid of k by k nodes with a line between neighbours.
fn grid(rt: &(impl Print + Clock + AllocGlobal), k: usize, times: bool) -> io::Result<()> {
    let lines = families::grid(rt.alloc(), k)?;
    let drawing = LineDrawing {
        items: lines.len(),
        nodes: k.saturating_mul(k),
        lines: lines.as_slice(),
    };
    print!(rt; "{k} by {k}, ")?;
    completed(rt, "a grid of lines", &drawing, times)
}

// Any k of n items.
fn k_of_n(
    rt: &(impl Print + Clock + AllocGlobal),
    k: u32,
    n: usize,
    times: bool,
) -> io::Result<()> {
    let alloc = rt.alloc();
    let mut rows = Vec::new(alloc);
    for items in &families::subsets(alloc, n, k)? {
        let mut set = WordSet::empty();
        for item in items {
            let _ = set.insert(*item);
        }
        rows.push(set)?;
    }
    let drawing = RowDrawing {
        items: n,
        rows: rows.as_slice(),
    };
    print!(rt; "{k} of {n}, ")?;
    completed(rt, "a drawing by rows", &drawing, times)
}

fn main(rt: HostRuntime) -> io::Result<()> {
    let times = env::args(&rt)?.any(|word| word.as_str() == "--times");
    let all = env::args(&rt)?.any(|word| word.as_str() == "--all");
    audits(&rt, times)?;
    grid(&rt, 3, times)?;
    grid(&rt, 4, times)?;
    k_of_n(&rt, 3, 6, times)?;
    k_of_n(&rt, 5, 10, times)?;
    k_of_n(&rt, 6, 12, times)?;
    if all {
        k_of_n(&rt, 7, 14, times)?;
        grid(&rt, 5, times)?;
    }
    Ok(())
}
