// What a verdict means, or what is wrong with a text and where, in one sentence for people.
use duality::Verdict;
use sheets::{ItemsFault, LabelPlace, MOST_BYTES, RowsFault};
use std::fmt;
use tables::TableFault;
use writing::TextFault;

// A text, and where its labels stand.
#[derive(Clone, Copy)]
pub struct Sheet<'a> {
    pub text: &'a [u8],
    pub labels: &'a [LabelPlace],
}

impl<'a> Sheet<'a> {
    // The line, without its line feed.
    fn line(&self, line: usize) -> &'a [u8] {
        let mut lines = self.text.split(|&b| b == b'\n');
        lines.nth(line.saturating_sub(1)).unwrap_or(&[])
    }

    // Whether a line feed ends the line.
    fn is_ended(&self, line: usize) -> bool {
        self.text.split(|&b| b == b'\n').nth(line).is_some()
    }

    // The label with this place in the row of the line.
    fn label(&self, line: usize, place: usize) -> &'a str {
        let mut labels = self.line(line).split(|&b| b == b' ').skip(1);
        shown(labels.nth(place).unwrap_or(&[]))
    }

    // The first label in the row of the line that belongs to no item.
    fn unknown(&self, line: usize) -> &'a str {
        let mut labels = self.line(line).split(|&b| b == b' ').skip(1);
        let unknown = labels.find(|label| !self.has(label));
        shown(unknown.unwrap_or(&[]))
    }

    // Whether the label belongs to an item.
    fn has(&self, label: &[u8]) -> bool {
        self.labels
            .iter()
            .any(|place| place.label(self.text) == label)
    }

    // The label of an item.
    fn label_of(&self, item: usize) -> &'a str {
        let place = self.labels.get(item);
        shown(place.map_or(&[], |place| place.label(self.text)))
    }
}

// A label as text.
fn shown<'a>(label: &'a [u8]) -> &'a str {
    std::str::from_utf8(label).unwrap_or("")
}

// What was found of a sheet.
#[derive(Clone, Copy)]
pub struct Explained<'a> {
    pub sheet: Sheet<'a>,
    pub found: Result<Verdict, TextFault>,
}

impl<'a> fmt::Display for Explained<'a> {
    fn fmt<W: fmt::Write>(&self, f: &mut fmt::Formatter<W>) -> fmt::Result {
        match self.found {
            Ok(verdict) => meaning(f, verdict),
            Err(TextFault::Items(fault)) => items(f, self.sheet, fault),
            Err(TextFault::Rows(fault)) => rows(f, self.sheet, fault),
            Err(TextFault::Write(fault)) => write!(f, "the report is not written: {fault}"),
        }
    }
}

// What the verdict means.
fn meaning<W: fmt::Write>(f: &mut fmt::Formatter<W>, verdict: Verdict) -> fmt::Result {
    match verdict {
        Verdict::Same => write!(f, "both tables describe the same system"),
        Verdict::Miss(_) => write!(
            f,
            "the tables differ: in the state shown no path is wholly up and no cut is wholly down"
        ),
        Verdict::Both(_) => write!(
            f,
            "the tables differ: in the state shown a path is wholly up and a cut is wholly down"
        ),
    }
}

// Why the labels are not read.
fn items<W: fmt::Write>(f: &mut fmt::Formatter<W>, sheet: Sheet, fault: ItemsFault) -> fmt::Result {
    match fault {
        ItemsFault::ItemCount(_, 0) => {
            write!(
                f,
                "there is no item: a sheet begins with lines such as `ITEM   0 P1`"
            )
        }
        ItemsFault::ItemCount(_, line) => {
            write!(
                f,
                "line {line}: a sheet may have 256 items, and this is one more"
            )
        }
        ItemsFault::NoPlace(places, line) => {
            write!(
                f,
                "line {line}: there are places for {places} labels, and this is one more"
            )
        }
        ItemsFault::TooLong(_) => too_long(f),
        ItemsFault::Unformed(line) => {
            let item = line.saturating_sub(1);
            unformed(f, sheet, line)?;
            write!(
                f,
                "the line of item {item} should stand here, such as `ITEM {item:>3} P1`"
            )
        }
        ItemsFault::Repeated(line, item) => {
            let label = sheet.label_of(item);
            write!(
                f,
                "line {line}: the label {label} already belongs to item {item}"
            )
        }
    }
}

// Why the rows are not read.
fn rows<W: fmt::Write>(f: &mut fmt::Formatter<W>, sheet: Sheet, fault: RowsFault) -> fmt::Result {
    match fault {
        RowsFault::ItemCount(_) | RowsFault::CountsDiffer(_, _) => {
            write!(f, "the rows are not read: {fault}")
        }
        RowsFault::TooLong(_) => too_long(f),
        RowsFault::Unformed(line) => {
            unformed(f, sheet, line)?;
            write!(
                f,
                "a row should stand here: `PATH` or `CUTS`, then a space and a label for each item"
            )
        }
        RowsFault::NoItem(line) => {
            let label = sheet.unknown(line);
            write!(f, "line {line}: the label {label} belongs to no item")
        }
        RowsFault::Put(fault, line) => put(f, sheet, fault, line),
    }
}

// Why a row is not put.
fn put<W: fmt::Write>(
    f: &mut fmt::Formatter<W>,
    sheet: Sheet,
    fault: TableFault,
    line: usize,
) -> fmt::Result {
    match fault {
        TableFault::Repeated(place) => {
            let label = sheet.label(line, place);
            write!(
                f,
                "line {line}: the label {label} stands in the row a second time"
            )
        }
        TableFault::CannotHold(place) => {
            let label = sheet.label(line, place);
            write!(
                f,
                "line {line}: a sheet of more than 64 items may have 16 in a row, and {label} is one more"
            )
        }
        TableFault::Contains(row) => {
            write!(
                f,
                "line {line}: the row contains row {row} of its table, counted from 0"
            )
        }
        TableFault::Full(capacity) => {
            write!(
                f,
                "line {line}: a table may have {capacity} rows, and this is one more"
            )
        }
        TableFault::ItemCount(_) | TableFault::NoSuchItem(_) | TableFault::NoSuchRow(_) => {
            write!(f, "line {line}: {fault}")
        }
    }
}

fn too_long<W: fmt::Write>(f: &mut fmt::Formatter<W>) -> fmt::Result {
    write!(f, "the text has more than {MOST_BYTES} bytes")
}

// The line that is not formed, and what the eye may miss of it.
fn unformed<W: fmt::Write>(f: &mut fmt::Formatter<W>, sheet: Sheet, line: usize) -> fmt::Result {
    write!(f, "line {line}: ")?;
    if !sheet.is_ended(line) {
        write!(f, "it does not end with a line feed; ")?;
    }
    if sheet.line(line).ends_with(b"\r") {
        write!(f, "it ends with a carriage return; ")?;
    }
    Ok(())
}
