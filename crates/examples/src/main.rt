// Sheet texts with all that is printed for each; then short output memories, STOP lines, tables of small capacity and rows of the list kind.
#![tactic(auto)]

use completion::complete;
use sets::{ListSet, SetKind, WordSet};
use sheets::LabelPlace;
use std::alloc::{AllocError, Global};
use std::io::{self, Write};
use std::{env, fs};
use systems::{Line, LineDrawing};
use tables::{Row, Table};
use writing::{answer_text, write_stop};

// The bridge's lines: from node, to node, item.
const BRIDGE: [(usize, usize, usize); 5] = [(0, 1, 0), (0, 2, 1), (1, 3, 2), (2, 3, 3), (1, 2, 4)];

fn rows<K: SetKind>(alloc: Global, places: usize) -> Result<Vec<Row<K>>, AllocError> {
    (0..places).map(|_| Row::empty()).collect(alloc)
}

// Prints all that is printed for the text, where the output memory is this.
fn answer(rt: &HostRuntime, text: &[u8], out: &mut [u8]) -> io::Result<()> {
    let alloc = rt.alloc();
    let mut labels = [LabelPlace { start: 0, len: 0 }; 256];
    let mut word_paths = rows(alloc, 100)?;
    let mut word_cuts = rows(alloc, 100)?;
    let mut list_paths = rows(alloc, 100)?;
    let mut list_cuts = rows(alloc, 100)?;
    let answer = answer_text(
        text,
        &mut labels,
        word_paths.as_mut_slice(),
        word_cuts.as_mut_slice(),
        list_paths.as_mut_slice(),
        list_cuts.as_mut_slice(),
        out,
    );
    match answer {
        Ok(answer) => io::writer(rt).write_all(out.get(..answer.len).unwrap_or(&[])),
        Err(fault) => println!(rt; "refused {}: {fault}", fault.number()),
    }
}

// Output memory with room for the report, for the STOP line alone, and for neither.
fn short_outputs(rt: &HostRuntime) -> io::Result<()> {
    let text = b"ITEM   0 P1\nITEM   1 P2\nPATH P1 P2\nCUTS P1\n";
    let mut out = [0; 46];
    for len in [46, 45, 15, 14] {
        println!(rt; "\nThe first text, with {len} bytes of output")?;
        answer(rt, text, out.get_mut(..len).unwrap_or(&mut []))?;
    }
    Ok(())
}

// Numbers that are too wide for their columns are nines.
fn stops(rt: &HostRuntime) -> io::Result<()> {
    println!(rt; "\nSTOP lines")?;
    let mut out = [0; 15];
    for (number, line) in [(13, 0), (999, 99_999), (1_000, 100_000), (7, usize::MAX)] {
        match write_stop(number, line, &mut out) {
            Ok(len) => io::writer(rt).write_all(out.get(..len).unwrap_or(&[]))?,
            Err(fault) => println!(rt; "refused {}: {fault}", fault.number())?,
        }
    }
    Ok(())
}

// Puts the row, and prints the answer.
fn put<K: SetKind>(rt: &HostRuntime, table: &mut Table<K>, items: &[usize]) -> io::Result<()> {
    print!(rt; "put")?;
    for item in items {
        print!(rt; " {item}")?;
    }
    match table.put(items) {
        Ok(removed) => println!(rt; ": accepted, rows removed: {removed}"),
        Err(fault) => println!(rt; ": refused {}: {fault}", fault.number()),
    }
}

// A table of one place: a row that contains no row is refused, one that is contained takes its place.
fn one_place(rt: &HostRuntime) -> io::Result<()> {
    println!(rt; "\nA table of one place")?;
    let mut memory = rows::<WordSet>(rt.alloc(), 1)?;
    let mut table = Table::open(memory.as_mut_slice(), 3);
    put(rt, &mut table, &[0, 1])?;
    put(rt, &mut table, &[2])?;
    put(rt, &mut table, &[0])
}

// The list kind can hold 16 items.
fn seventeen(rt: &HostRuntime) -> io::Result<()> {
    println!(rt; "\nRows of 16 and of 17 items in a list")?;
    let items = [0, 1, 2, 3, 4, 5, 6, 7, 8, 9, 10, 11, 12, 13, 14, 15, 16];
    let mut memory = rows::<ListSet>(rt.alloc(), 2)?;
    let mut table = Table::open(memory.as_mut_slice(), 256);
    put(rt, &mut table, items.get(..16).unwrap_or(&[]))?;
    put(rt, &mut table, &items)
}

// The bridge has four minimal paths.
fn three_places(rt: &HostRuntime) -> io::Result<()> {
    println!(rt; "\nThe bridge, with three places for paths")?;
    let mut path_memory = rows::<ListSet>(rt.alloc(), 3)?;
    let mut cut_memory = rows::<ListSet>(rt.alloc(), 4)?;
    let mut paths = Table::open(path_memory.as_mut_slice(), 5);
    let mut cuts = Table::open(cut_memory.as_mut_slice(), 5);
    let lines = BRIDGE.map(|(from, to, item)| Line { from, to, item });
    let bridge = LineDrawing {
        items: 5,
        nodes: 4,
        lines: &lines,
    };
    match complete(&mut paths, &mut cuts, &bridge) {
        Ok(()) => println!(rt; "DONE"),
        Err(fault) => println!(rt; "refused {}: {fault}", fault.number()),
    }
}

fn main(rt: HostRuntime) -> io::Result<()> {
    for name in env::args(&rt)?.skip(1) {
        println!(rt; "{}", name.as_str())?;
        let text = fs::read(&rt, name.as_str())?;
        io::writer(&rt).write_all(text.as_slice())?;
        println!(rt; "--")?;
        answer(&rt, text.as_slice(), &mut [0; 6_000])?;
        println!(rt; "")?;
    }
    short_outputs(&rt)?;
    stops(&rt)?;
    one_place(&rt)?;
    seventeen(&rt)?;
    three_places(&rt)
}
