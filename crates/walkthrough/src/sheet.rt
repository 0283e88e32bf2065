// The bridge figure, read from sheet texts and written as one.
use crate::{bridge, show};
use completion::complete;
use sets::WordSet;
use sheets::{LabelPlace, read_items, read_rows};
use std::io::{self, Write};
use tables::Table;
use writing::{write_report, write_sheet};

const SHEET: &[u8] = b"ITEM   0 VALVE-1
ITEM   1 VALVE-2
ITEM   2 PUMP-1
ITEM   3 PUMP-2
ITEM   4 LINK
PATH VALVE-1 PUMP-1
PATH VALVE-2 PUMP-2
PATH VALVE-1 PUMP-2 LINK
PATH VALVE-2 PUMP-1 LINK
CUTS VALVE-1 VALVE-2
CUTS PUMP-1 PUMP-2
CUTS VALVE-1 PUMP-2 LINK
CUTS VALVE-2 PUMP-1 LINK
";

// The last line has a small L where the label has the digit 1.
const LOOK_ALIKE: &[u8] = b"ITEM   0 VALVE-1
ITEM   1 VALVE-2
PATH VALVE-1 VALVE-2
CUTS VALVE-2
CUTS VALVE-l
";

// Its second item is not the next one.
const GAP: &[u8] = b"ITEM   0 VALVE-1
ITEM   2 VALVE-2
PATH VALVE-1
";

pub fn read(rt: &(impl Print + AllocGlobal)) -> io::Result<()> {
    println!(rt; "The bridge, read from a sheet text")?;
    read_text(rt, SHEET)?;
    println!(rt; "\nA label that looks alike")?;
    read_text(rt, LOOK_ALIKE)?;
    println!(rt; "\nA gap in the items")?;
    read_text(rt, GAP)?;
    println!(rt; "")
}

// Reads the items and the rows of a text, and audits them.
fn read_text(rt: &(impl Print + AllocGlobal), text: &[u8]) -> io::Result<()> {
    let mut places = [LabelPlace { start: 0, len: 0 }; 8];
    print!(rt; "read items: ")?;
    let count = match read_items(text, &mut places) {
        Ok(count) => count,
        Err(fault) => return show::refused(rt, fault.number(), &fault),
    };
    println!(rt; "{count} read")?;
    let labels = places.get(..count).unwrap_or(&[]);
    let mut path_memory = show::memory::<WordSet>(rt.alloc(), 6)?;
    let mut cut_memory = show::memory::<WordSet>(rt.alloc(), 6)?;
    let mut paths = Table::open(path_memory.as_mut_slice(), count);
    let mut cuts = Table::open(cut_memory.as_mut_slice(), count);
    print!(rt; "read rows: ")?;
    match read_rows(text, labels, &mut paths, &mut cuts) {
        Ok(()) => println!(rt; "all read")?,
        Err(fault) => show::refused(rt, fault.number(), &fault)?,
    }
    show::rows(rt, "path", paths.rows(), paths.row_count())?;
    show::rows(rt, "cut", cuts.rows(), cuts.row_count())?;
    show::audited(rt, &paths, &cuts)
}

// Fills two tables from the bridge's lines, writes them as a sheet text with the labels of the one above, and reads that back.
pub fn write(rt: &(impl Print + AllocGlobal)) -> io::Result<()> {
    println!(rt; "\nThe bridge, written as a sheet text from its lines")?;
    let mut places = [LabelPlace { start: 0, len: 0 }; 8];
    let count = match read_items(SHEET, &mut places) {
        Ok(count) => count,
        Err(fault) => return show::refused(rt, fault.number(), &fault),
    };
    let labels = places.get(..count).unwrap_or(&[]);
    let mut path_memory = show::memory::<WordSet>(rt.alloc(), 4)?;
    let mut cut_memory = show::memory::<WordSet>(rt.alloc(), 4)?;
    let mut paths = Table::open(path_memory.as_mut_slice(), count);
    let mut cuts = Table::open(cut_memory.as_mut_slice(), count);
    if let Err(fault) = complete(&mut paths, &mut cuts, &bridge::FIGURE) {
        return show::refused(rt, fault.number(), &fault);
    }
    let mut out = [0; 400];
    match write_sheet(SHEET, labels, &paths, &cuts, &mut out) {
        Ok(len) => read_back(rt, out.get(..len).unwrap_or(&[])),
        Err(fault) => show::refused(rt, fault.number(), &fault),
    }
}

// Prints the text, reads it, and prints the report of its tables.
fn read_back(rt: &(impl Print + AllocGlobal), text: &[u8]) -> io::Result<()> {
    io::writer(rt).write_all(text)?;
    println!(rt; "\nRead back, and its report")?;
    let mut places = [LabelPlace { start: 0, len: 0 }; 8];
    let count = match read_items(text, &mut places) {
        Ok(count) => count,
        Err(fault) => return show::refused(rt, fault.number(), &fault),
    };
    let labels = places.get(..count).unwrap_or(&[]);
    let mut path_memory = show::memory::<WordSet>(rt.alloc(), 4)?;
    let mut cut_memory = show::memory::<WordSet>(rt.alloc(), 4)?;
    let mut paths = Table::open(path_memory.as_mut_slice(), count);
    let mut cuts = Table::open(cut_memory.as_mut_slice(), count);
    if let Err(fault) = read_rows(text, labels, &mut paths, &mut cuts) {
        return show::refused(rt, fault.number(), &fault);
    }
    let mut out = [0; 200];
    match write_report(text, labels, &paths, &cuts, &mut out) {
        Ok(len) => io::writer(rt).write_all(out.get(..len).unwrap_or(&[])),
        Err(fault) => show::refused(rt, fault.number(), &fault),
    }
}
