// The bridge: nodes 0 to 3, and lines 0-1, 0-2, 1-3, 2-3, 1-2 with the items 0 to 4. Sets in words.
use crate::show::{self, Tables};
use completion::Call;
use sets::WordSet;
use std::io;
use systems::{Line, LineDrawing};
use tables::Table;

const ITEMS: usize = 5;

const LINES: &[Line] = &[
    Line {
        from: 0,
        to: 1,
        item: 0,
    },
    Line {
        from: 0,
        to: 2,
        item: 1,
    },
    Line {
        from: 1,
        to: 3,
        item: 2,
    },
    Line {
        from: 2,
        to: 3,
        item: 3,
    },
    Line {
        from: 1,
        to: 2,
        item: 4,
    },
];

pub const FIGURE: LineDrawing = LineDrawing {
    items: ITEMS,
    nodes: 4,
    lines: LINES,
};

// The bridge, and its lines with an item that no line has.
const DRAWINGS: &[LineDrawing] = &[
    FIGURE,
    LineDrawing {
        items: ITEMS + 1,
        nodes: 4,
        lines: LINES,
    },
];

const TYPED: &[Call] = &[
    Call::PutPath(&[0, 2, 4]),
    Call::PutPath(&[1, 3]),
    Call::PutPath(&[0, 5]),
    Call::PutPath(&[2, 0, 2]),
    Call::PutPath(&[0, 1, 3]),
    Call::PutPath(&[0, 2]),
    Call::PutPath(&[0, 3, 4]),
    Call::PutPath(&[1, 2, 4]),
    Call::PutCut(&[0, 1]),
    Call::PutCut(&[1, 2]),
    Call::PutCut(&[2, 3]),
    Call::PutCut(&[0, 3, 4]),
    Call::PutCut(&[1, 3]),
    Call::PutCut(&[1, 4, 2]),
    Call::StrikeCut(4),
    Call::StrikeCut(1),
    Call::PutCut(&[1, 4, 2]),
    Call::Audit,
    // one row short
    Call::StrikeCut(3),
    Call::Audit,
    // one row wrong
    Call::PutCut(&[2, 4]),
    Call::Audit,
    // mended
    Call::StrikeCut(3),
    Call::PutCut(&[1, 2, 4]),
    Call::Audit,
    // every cut meets every path, and still they differ
    Call::StrikePath(3),
    Call::StrikePath(2),
    Call::Audit,
];

// Two draughtsmen type in their tables, with mistakes, and have them audited.
pub fn typed(rt: &(impl Print + AllocGlobal)) -> io::Result<()> {
    println!(rt; "The bridge, typed in: sets in words")?;
    for items in [0, 65, ITEMS] {
        show::judge::<WordSet>(rt, items)?;
    }
    let tables = Tables {
        items: ITEMS,
        paths: 6,
        cuts: 4,
    };
    tables.run::<WordSet, LineDrawing>(rt, TYPED, &[])
}

// Tables opened with a count that is not permitted answer 1 to every call.
pub fn wrong_count(rt: &(impl Print + AllocGlobal)) -> io::Result<()> {
    println!(rt; "\nA count that is not permitted")?;
    let mut memory = show::memory::<WordSet>(rt.alloc(), 2)?;
    show::row(rt, "wrong", &Table::open(memory.as_mut_slice(), 65), 0)?;
    let tables = Tables {
        items: 65,
        paths: 2,
        cuts: 2,
    };
    let calls = [
        Call::PutPath(&[0]),
        Call::StrikeCut(0),
        Call::Audit,
        Call::Complete(0),
    ];
    tables.run::<WordSet, _>(rt, &calls, DRAWINGS)
}

// Both tables filled from the drawing: from nothing, from rows that are not minimal, with a row that it does not bear out, and
// with three places for four minimal paths.
pub fn drawn(rt: &(impl Print + AllocGlobal)) -> io::Result<()> {
    println!(rt; "\nThe bridge, filled from its lines")?;
    let calls = [
        Call::Complete(1),
        Call::Complete(2),
        Call::Complete(0),
        Call::Audit,
    ];
    filled(rt, 6, &calls)?;
    println!(rt; "\nFrom rows that are not minimal")?;
    let calls = [
        Call::PutPath(&[0, 1, 2, 4]),
        Call::PutPath(&[0, 2, 3]),
        Call::PutCut(&[0, 1, 3]),
        Call::Complete(0),
        Call::Audit,
    ];
    filled(rt, 6, &calls)?;
    println!(rt; "\nWith a row that the drawing does not bear out")?;
    let calls = [
        Call::PutPath(&[1, 3]),
        Call::PutCut(&[0, 1]),
        Call::PutCut(&[3, 4]),
        Call::Complete(0),
    ];
    filled(rt, 6, &calls)?;
    println!(rt; "\nWith three places for paths")?;
    filled(rt, 3, &[Call::Complete(0)])
}

// A run with so many places for paths.
fn filled(rt: &(impl Print + AllocGlobal), paths: usize, calls: &[Call]) -> io::Result<()> {
    let tables = Tables {
        items: ITEMS,
        paths,
        cuts: 6,
    };
    tables.run::<WordSet, _>(rt, calls, DRAWINGS)
}
