// Reads the sheet texts that it is named, and says of each what is read or why it is refused.
#![tactic(auto)]

use sets::{ListSet, SetKind, WordSet};
use sheets::{LabelPlace, read_items, read_rows};
use std::alloc::{AllocError, Global};
use std::{env, fs, io};
use tables::{Row, Table};

// Places for labels, and for the rows of either table.
const LABEL_PLACES: usize = 300;

const ROW_PLACES: usize = 4;

fn label_places(alloc: Global, count: usize) -> Result<Vec<LabelPlace>, AllocError> {
    (0..count)
        .map(|_| LabelPlace { start: 0, len: 0 })
        .collect(alloc)
}

fn row_places<K: SetKind>(alloc: Global) -> Result<Vec<Row<K>>, AllocError> {
    (0..ROW_PLACES).map(|_| Row::empty()).collect(alloc)
}

// The label that stands in the place.
fn label(rt: &impl Print, text: &[u8], place: &LabelPlace) -> io::Result<()> {
    print!(rt; " ")?;
    for &byte in text.iter().skip(place.start).take(place.len) {
        print!(rt; "{}", char::from(byte))?;
    }
    Ok(())
}

// The rows of a table, in the order in which they stand there, by their labels.
fn rows<K: SetKind>(
    rt: &impl Print,
    head: &str,
    text: &[u8],
    labels: &[LabelPlace],
    table: &Table<K>,
) -> io::Result<()> {
    for row in table.rows() {
        print!(rt; "  {head}")?;
        for item in row.set().members() {
            if let Some(place) = labels.get(item) {
                label(rt, text, place)?;
            }
        }
        println!(rt; "")?;
    }
    Ok(())
}

// Reads the rows into two tables, and shows what these have then.
fn show_rows<K: SetKind>(
    rt: &(impl Print + AllocGlobal),
    text: &[u8],
    labels: &[LabelPlace],
) -> io::Result<()> {
    let mut path_memory = row_places::<K>(rt.alloc())?;
    let mut cut_memory = row_places::<K>(rt.alloc())?;
    let mut paths = Table::open(path_memory.as_mut_slice(), labels.len());
    let mut cuts = Table::open(cut_memory.as_mut_slice(), labels.len());
    match read_rows(text, labels, &mut paths, &mut cuts) {
        Ok(()) => println!(rt; "  rows read")?,
        Err(fault) => println!(rt; "  refused {}: {fault}", fault.number())?,
    }
    rows(rt, "path", text, labels, &paths)?;
    rows(rt, "cut", text, labels, &cuts)
}

// Reads a text with so many places for labels: sets in words as far as these go, else in lists.
fn show(rt: &(impl Print + AllocGlobal), text: &[u8], places: usize) -> io::Result<()> {
    let mut labels = label_places(rt.alloc(), places)?;
    match read_items(text, labels.as_mut_slice()) {
        Err(fault) => println!(rt; "  refused {}: {fault}", fault.number()),
        Ok(count) => {
            let labels = labels.as_slice().get(..count).unwrap_or(&[]);
            print!(rt; "  items {count}:")?;
            for place in labels {
                label(rt, text, place)?;
            }
            println!(rt; "")?;
            if Table::<WordSet>::judge(count).is_ok() {
                show_rows::<WordSet>(rt, text, labels)
            } else {
                show_rows::<ListSet>(rt, text, labels)
            }
        },
    }
}

// A text of 65,533 bytes and the last label with its space, whose third line has a label many times.
fn long_text(alloc: Global, last: &[u8]) -> Result<Vec<u8>, AllocError> {
    let mut text = b"ITEM   0 A\nITEM   1 BB\nPATH BB".to_vec(alloc)?;
    for _ in 0..32_751 {
        text.extend_from_slice(b" A")?;
    }
    text.extend_from_slice(last)?;
    text.push(b'\n')?;
    Ok(text)
}

// Reads the rows of a text into tables that were opened for so many items each.
fn fit(
    rt: &(impl Print + AllocGlobal),
    paths: usize,
    cuts: usize,
    text: &[u8],
    labels: &[LabelPlace],
) -> io::Result<()> {
    let mut path_memory = row_places::<WordSet>(rt.alloc())?;
    let mut cut_memory = row_places::<WordSet>(rt.alloc())?;
    let mut path_table = Table::open(path_memory.as_mut_slice(), paths);
    let mut cut_table = Table::open(cut_memory.as_mut_slice(), cuts);
    print!(rt; "  {paths} items, {cuts} items, {} labels: ", labels.len())?;
    match read_rows(text, labels, &mut path_table, &mut cut_table) {
        Ok(()) => println!(rt; "rows read"),
        Err(fault) => println!(rt; "refused {}: {fault}", fault.number()),
    }
}

// The second call alone: tables and labels that do not fit, and label places with other contents.
fn fits(rt: &(impl Print + AllocGlobal)) -> io::Result<()> {
    let text = b"ITEM not judged\nITEM\nPATH AB\n".as_slice();
    let within = LabelPlace { start: 26, len: 2 };
    let outside = LabelPlace {
        start: 26,
        len: usize::MAX,
    };
    fit(rt, 0, 2, text, &[within, within])?;
    fit(rt, 2, 65, text, &[within, within])?;
    fit(rt, 2, 3, text, &[within, within])?;
    fit(rt, 2, 2, text, &[within])?;
    fit(rt, 2, 2, text, &[outside, within])?;
    fit(rt, 2, 2, text, &[outside, outside])?;
    let long = long_text(rt.alloc(), b" BB")?;
    fit(rt, 2, 2, long.as_slice(), &[within])?;
    fit(rt, 2, 2, long.as_slice(), &[within, within])
}

fn main(rt: HostRuntime) -> io::Result<()> {
    for name in env::args(&rt)?.skip(1) {
        println!(rt; "{}", name.as_str())?;
        let text = fs::read(&rt, name.as_str())?;
        show(&rt, text.as_slice(), LABEL_PLACES)?;
    }
    println!(rt; "three items, two places for labels")?;
    show(&rt, b"ITEM   0 A\nITEM   1 B\nITEM   2 C\n", 2)?;
    for last in [b" A".as_slice(), b" BB".as_slice()] {
        let text = long_text(rt.alloc(), last)?;
        println!(rt; "a text of {} bytes", text.len())?;
        show(&rt, text.as_slice(), LABEL_PLACES)?;
    }
    println!(rt; "the rows alone")?;
    fits(&rt)
}
