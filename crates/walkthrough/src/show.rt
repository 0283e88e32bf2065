// Runs of calls, each call printed with its answer.
ghost use Rattle.std.specs.Iterator.{IsFinite};

use completion::{Answer, Call, Refused, Reply, replay};
use duality::{Verdict, audit};
use sets::SetKind;
use std::alloc::{AllocError, Global};
use std::fmt::Display;
use std::io;
use systems::Drawing;
use tables::{Row, Table};

// Judges an item count for tables of the kind.
pub fn judge<K: SetKind>(rt: &impl Print, items: usize) -> io::Result<()> {
    print!(rt; "judge {items} items: ")?;
    match Table::<K>::judge(items) {
        Ok(()) => println!(rt; "permitted"),
        Err(fault) => refused(rt, fault.number(), &fault),
    }
}

// The two tables of a run: their item count, and how many places each has.
#[derive(Clone, Copy, Debug, PartialEq, Eq)]
pub struct Tables {
    pub items: usize,
    pub paths: usize,
    pub cuts: usize,
}

impl Tables {
    // Makes the calls, and shows each with its answer, and the rows at the end.
    pub fn run<K: SetKind, D: Drawing>(
        &self,
        rt: &(impl Print + AllocGlobal),
        calls: &[Call],
        drawings: &[D],
    ) -> io::Result<()> {
        let mut paths = memory::<K>(rt.alloc(), self.paths)?;
        let mut cuts = memory::<K>(rt.alloc(), self.cuts)?;
        let mut answers = places(rt.alloc(), calls.len())?;
        println!(rt;
            "open {} items, {} places for paths, {} for cuts",
            self.items, self.paths, self.cuts
        )?;
        // as `replay` opens them
        opened(rt, "paths", &Table::open(paths.as_mut_slice(), self.items))?;
        opened(rt, "cuts", &Table::open(cuts.as_mut_slice(), self.items))?;
        let end = replay(
            self.items,
            calls,
            drawings,
            paths.as_mut_slice(),
            cuts.as_mut_slice(),
            answers.as_mut_slice(),
        );
        for (call, reply) in calls.iter().zip(answers.as_slice()) {
            called(rt, call)?;
            replied(rt, reply)?;
        }
        println!(rt;
            "calls made: {}, paths: {}, cuts: {}",
            end.made, end.paths, end.cuts
        )?;
        rows(rt, "path", paths.as_slice(), end.paths)?;
        rows(rt, "cut", cuts.as_slice(), end.cuts)
    }
}

// Row memory of so many places.
pub fn memory<K: SetKind>(alloc: Global, places: usize) -> Result<Vec<Row<K>>, AllocError> {
    (0..places).map(|_| Row::empty()).collect(alloc)
}

// Places for so many answers.
fn places(alloc: Global, count: usize) -> Result<Vec<Reply>, AllocError> {
    (0..count).map(|_| Ok(Answer::Done)).collect(alloc)
}

// A table as it was opened.
fn opened<K: SetKind>(rt: &impl Print, name: &str, table: &Table<K>) -> io::Result<()> {
    println!(rt;
        "{name}: item count {}, capacity {}",
        table.item_count(),
        table.capacity()
    )
}

// The row of a table with this number.
pub fn row<K: SetKind>(
    rt: &impl Print,
    name: &str,
    table: &Table<K>,
    row: usize,
) -> io::Result<()> {
    print!(rt; "{name}: row {row}: ")?;
    match table.row(row) {
        Ok(set) => {
            braces(rt, set.members())?;
            println!(rt; "")
        },
        Err(fault) => refused(rt, fault.number(), &fault),
    }
}

// A call.
fn called(rt: &impl Print, call: &Call) -> io::Result<()> {
    match *call {
        Call::PutPath(items) => put(rt, "path", items)?,
        Call::PutCut(items) => put(rt, "cut", items)?,
        Call::StrikePath(row) => print!(rt; "strike path {row}")?,
        Call::StrikeCut(row) => print!(rt; "strike cut {row}")?,
        Call::Audit => print!(rt; "audit")?,
        Call::Complete(number) => print!(rt; "complete from drawing {number}")?,
    }
    print!(rt; ": ")
}

// A put, with the list as it was typed.
fn put(rt: &impl Print, table: &str, items: &[usize]) -> io::Result<()> {
    print!(rt; "put {table} ")?;
    braces(rt, items.iter().copied())
}

// What it replied.
fn replied(rt: &impl Print, reply: &Reply) -> io::Result<()> {
    match reply {
        Ok(Answer::Removed(removed)) => println!(rt; "accepted, rows removed: {removed}"),
        Ok(Answer::Struck) => println!(rt; "struck"),
        Ok(Answer::Said(verdict)) => said(rt, verdict),
        Ok(Answer::Done) => println!(rt; "DONE"),
        Err(fault) => not_made(rt, fault),
    }
}

// Audits two tables.
pub fn audited<K: SetKind>(rt: &impl Print, paths: &Table<K>, cuts: &Table<K>) -> io::Result<()> {
    print!(rt; "audit: ")?;
    match audit(paths, cuts) {
        Ok(verdict) => said(rt, &verdict),
        Err(fault) => refused(rt, fault.number(), &fault),
    }
}

// A verdict, with the items that are up and those that are down in the state that it shows.
fn said(rt: &impl Print, verdict: &Verdict) -> io::Result<()> {
    let state = verdict.shown();
    if state.count() == 0 {
        return println!(rt; "{verdict}");
    }
    print!(rt; "{verdict}, up ")?;
    braces(rt, (0..state.count()).filter(|&item| state.is_up(item)))?;
    print!(rt; ", down ")?;
    braces(rt, (0..state.count()).filter(|&item| !state.is_up(item)))?;
    println!(rt; "")
}

// A refusal: its number, and what it means.
pub fn refused(rt: &impl Print, number: usize, fault: &impl Display) -> io::Result<()> {
    println!(rt; "refused {number}: {fault}")
}

// A call that was refused; that there is no such drawing has no number.
fn not_made(rt: &impl Print, fault: &Refused) -> io::Result<()> {
    if let Some(number) = fault.number() {
        refused(rt, number, fault)
    } else {
        println!(rt; "{fault}")
    }
}

// The rows of a table, as they stand in its memory.
pub fn rows<K: SetKind>(
    rt: &impl Print,
    name: &str,
    memory: &[Row<K>],
    count: usize,
) -> io::Result<()> {
    for (number, row) in memory.iter().take(count).enumerate() {
        print!(rt; "{name} {number}: ")?;
        braces(rt, row.set().members())?;
        println!(rt; "")?;
    }
    Ok(())
}

// Item numbers in braces.
fn braces<I: Iterator<Item = usize> + Drop>(rt: &impl Print, mut items: I) -> io::Result<()>
    requires can { I.can_next items }
    requires ends { IsFinite (I.remaining items) }
{
    print!(rt; "{{")?;
    if let Some(first) = items.next() {
        print!(rt; "{first}")?;
        for item in items {
            print!(rt; ", {item}")?;
        }
    }
    print!(rt; "}}")
}
