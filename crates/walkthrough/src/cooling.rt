// A cooling loop of 18 items: pumps 0 and 1, of which one is enough; a main line 2, 3 and a reserve line 4, 5, of which one is
// enough; nozzles 6 to 17, which are all needed. Sets in lists.
use crate::show::{self, Tables};
use completion::Call;
use sets::ListSet;
use std::io;
use systems::{Line, LineDrawing};

const ITEMS: usize = 18;

const TYPED: &[Call] = &[
    Call::PutPath(&[0, 1, 2, 3, 4, 5, 6, 7, 8, 9, 10, 11, 12, 13, 14, 15, 16, 17]),
    Call::PutPath(&[0, 1, 2, 3, 6, 7, 8, 9, 10, 11, 12, 13, 14, 15, 16, 17]),
    Call::PutPath(&[0, 4, 5, 6, 7, 8, 9, 10, 11, 12, 13, 14, 15, 16, 17]),
    Call::PutPath(&[0, 2, 3, 6, 7, 8, 9, 10, 11, 12, 13, 14, 15, 16, 17, 18]),
    Call::PutPath(&[0, 2, 3, 6, 7, 8, 9, 10, 11, 12, 13, 14, 15, 16, 17]),
    Call::PutPath(&[1, 2, 3, 6, 7, 8, 9, 10, 11, 12, 13, 14, 15, 16, 17]),
    Call::PutPath(&[1, 4, 5, 6, 7, 8, 9, 10, 11, 12, 13, 14, 15, 16, 17]),
    Call::PutPath(&[1, 2, 4, 6]),
    Call::PutCut(&[0, 1]),
    Call::PutCut(&[2, 4]),
    Call::PutCut(&[2, 5]),
    Call::PutCut(&[3, 4]),
    Call::PutCut(&[3, 5]),
    Call::PutCut(&[3, 5, 5]),
    Call::PutCut(&[6, 7, 8]),
    Call::PutCut(&[7, 9]),
    Call::PutCut(&[6]),
    Call::PutCut(&[7]),
    Call::PutCut(&[8]),
    Call::PutCut(&[9]),
    Call::PutCut(&[10]),
    Call::PutCut(&[11]),
    Call::PutCut(&[12]),
    Call::PutCut(&[13]),
    Call::PutCut(&[14]),
    Call::PutCut(&[15]),
    Call::PutCut(&[16]),
    Call::PutCut(&[17]),
    Call::StrikeCut(17),
    Call::Audit,
    // one row short
    Call::StrikeCut(4),
    Call::Audit,
];

// The two tables typed in, and one row struck.
pub fn typed(rt: &(impl Print + AllocGlobal)) -> io::Result<()> {
    println!(rt; "\nA cooling loop, typed in: sets in lists")?;
    for items in [257, ITEMS] {
        show::judge::<ListSet>(rt, items)?;
    }
    let tables = Tables {
        items: ITEMS,
        paths: 4,
        cuts: 20,
    };
    tables.run::<ListSet, LineDrawing>(rt, TYPED, &[])
}

// Seventeen valves in a row: their one minimal path has more items than a list can hold.
pub fn drawn(rt: &(impl Print + AllocGlobal)) -> io::Result<()> {
    println!(rt; "\nSeventeen valves in a row, filled from their lines")?;
    let valve = |item: usize| Line {
        from: item,
        to: item + 1,
        item,
    };
    let lines: Vec<Line> = (0..17).map(valve).collect(rt.alloc())?;
    let drawing = LineDrawing {
        items: 17,
        nodes: 18,
        lines: lines.as_slice(),
    };
    let tables = Tables {
        items: 17,
        paths: 4,
        cuts: 20,
    };
    tables.run::<ListSet, _>(rt, &[Call::Complete(0), Call::Audit], &[drawing])
}
