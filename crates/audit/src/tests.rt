// Tests of what the program reads and prints at its limits, and of its sentences.
use crate::printing::{printed, read};
use std::alloc::{AllocError, Global};
use std::io;
use std::test::Fail;

const SHEET: &str = "ITEM   0 P1\nITEM   1 P2\nITEM   2 P3\n";

// A text of 256 items with this many paths of two items each.
fn large(alloc: Global, paths: usize) -> Result<String, AllocError> {
    let mut text = String::new(alloc);
    for item in 0..256 {
        text.push_str(format!(in alloc; "ITEM {item:>3} LABEL-{item}\n")?.as_str())?;
    }
    for path in 0..paths {
        let (item, other) = (path / 4, path / 4 + path % 4 + 1);
        text.push_str(format!(in alloc; "PATH LABEL-{item} LABEL-{other}\n")?.as_str())?;
    }
    Ok(text)
}

// A sheet may have 256 items and 1,000 rows in a table, and its report has room.
#[test]
fn limits(rt: HostRuntime) -> Result<(), Fail> {
    let text = large(rt.alloc(), 1_000)?;
    let out = printed(rt.alloc(), text.as_bytes(), false)?.bytes;
    assert!(rt; out.as_slice().starts_with(b"ROWS     0  1000\nMISS\n"));
    assert!(rt; out.as_slice().ends_with(b" 255 LABEL-255\n"));
    assert_eq!(rt; out.len(), 17 + 5 + 10 * 17 + 90 * 18 + 156 * 19);
    let text = large(rt.alloc(), 1_001)?;
    let out = printed(rt.alloc(), text.as_bytes(), false)?.bytes;
    assert_eq!(rt; out.as_slice(), b"STOP   6  1257\n".as_slice());
    Ok(())
}

// One byte more than a text may have is read, and then it is refused.
#[test]
fn too_long(rt: HostRuntime) -> Result<(), Fail> {
    let endless = vec![in rt.alloc(); b'I'; 70_000]?;
    let text = read(rt.alloc(), endless.as_slice())?;
    assert_eq!(rt; text.len(), 65_536);
    let out = printed(rt.alloc(), text.as_slice(), false)?.bytes;
    assert_eq!(rt; out.as_slice(), b"STOP  13     0\n".as_slice());
    Ok(())
}

// The sentence for each kind of verdict and of mistake; none where it is not asked for.
#[test]
fn sentences(rt: HostRuntime) -> Result<(), Fail> {
    let cases = [
        ("PATH P1\nCUTS P1\n", "both tables describe the same system"),
        (
            "PATH P1\n",
            "the tables differ: in the state shown no path is wholly up and no cut is wholly down",
        ),
        (
            "PATH P1\nCUTS P2\n",
            "the tables differ: in the state shown a path is wholly up and a cut is wholly down",
        ),
        ("PATH P1 Pl P4\n", "line 4: the label Pl belongs to no item"),
        (
            "PATH P1\nPATH P2 P3 P2\n",
            "line 5: the label P2 stands in the row a second time",
        ),
        (
            "PATH P2\nPATH P1\nPATH P3 P1\n",
            "line 6: the row contains row 1 of its table, counted from 0",
        ),
        (
            "ITEM   3 P2\n",
            "line 4: the label P2 already belongs to item 1",
        ),
        (
            "ITEM   4 P4\n",
            "line 4: the line of item 3 should stand here, such as `ITEM   3 P1`",
        ),
        (
            "PATH P1\r\n",
            "line 4: it ends with a carriage return; a row should stand here: `PATH` or `CUTS`, then a space and a label for each item",
        ),
        (
            "PATH P1",
            "line 4: it does not end with a line feed; a row should stand here: `PATH` or `CUTS`, then a space and a label for each item",
        ),
    ];
    for (rows, sentence) in cases {
        let text = format!(in rt.alloc(); "{SHEET}{rows}")?;
        let printed = printed(rt.alloc(), text.as_bytes(), true)?;
        assert_eq!(rt;
            printed.sentence.as_ref().map(|it| it.as_str()),
            Some(sentence)
        );
    }
    let printed = printed(rt.alloc(), SHEET.as_bytes(), false)?;
    assert!(rt; printed.sentence.is_none());
    Ok(())
}
