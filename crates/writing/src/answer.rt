// All that is printed for a text: the report of its tables, or the STOP line.
ghost use Rattle.std.specs.Prelude.{◌≤◌, length};
ghost use Rattle.sheets.specs.Bytes.{Bytes};
ghost use Rattle.writing.specs.Answers.{KindAnswer, Finds, AnswerCall, Leaves, verdict_of};

use crate::fault::WriteFault;
use crate::report::{Report, write_verdict};
use crate::stop::write_stop;
use crate::text_fault::TextFault;
use duality::{Verdict, audit};
use sets::{ListSet, SetKind, WordSet};
use sheets::{LabelPlace, read_items, read_rows};
use tables::{Row, Table};

// What is printed: its length, and the verdict or why there is none.
#[derive(Clone, Copy, Debug, PartialEq, Eq)]
pub struct Answer {
    pub len: usize,
    pub found: Result<Verdict, TextFault>,
}

// The length of a report that is written, and its verdict.
#[derive(Clone, Copy)]
pub(crate) struct Reported {
    len: usize,
    verdict: Verdict,
}

// Reads the rows of the text into two fresh tables, and writes their report.
pub(crate) fn report_rows<K: SetKind>(
    text: &[u8],
    places: &[LabelPlace],
    path_memory: &mut [Row<K>],
    cut_memory: &mut [Row<K>],
    out: &mut [u8],
) -> Result<Reported, TextFault>
    requires some { 1 ≤ length places.now }
    requires few { length places.now ≤ K.top }
    ensures { (bytes : Bytes) × KindAnswer K.mem K.holds text.now places.now path_memory.old path_memory.new cut_memory.old cut_memory.new (length out.old) (verdict_of result) bytes × Leaves result bytes out.old out.new }
{
    let mut paths = Table::open(path_memory, places.len());
    let mut cuts = Table::open(cut_memory, places.len());
    read_rows(text, places, &mut paths, &mut cuts)?;
    let verdict = audit(&paths, &cuts)?;
    let report = Report {
        paths: paths.row_count(),
        cuts: cuts.row_count(),
        verdict,
    };
    let len = write_verdict(text, places, &report, out)?;
    Ok(Reported { len, verdict })
}

// Reads the labels and the rows of the text, in words as far as these go, else in lists, and writes the report.
pub(crate) fn report_on(
    text: &[u8],
    labels: &mut [LabelPlace],
    word_paths: &mut [Row<WordSet>],
    word_cuts: &mut [Row<WordSet>],
    list_paths: &mut [Row<ListSet>],
    list_cuts: &mut [Row<ListSet>],
    out: &mut [u8],
) -> Result<Reported, TextFault>
    ensures { (bytes : Bytes) × Finds text.now (length out.old) (record { labels = labels.old; word_paths = word_paths.old; word_cuts = word_cuts.old; list_paths = list_paths.old; list_cuts = list_cuts.old }) (record { labels = labels.new; word_paths = word_paths.new; word_cuts = word_cuts.new; list_paths = list_paths.new; list_cuts = list_cuts.new }) (verdict_of result) bytes × Leaves result bytes out.old out.new }
{
    let count = read_items(text, labels)?;
    let places = &labels[..count];
    if Table::<WordSet>::judge(count).is_ok() {
        report_rows(text, places, word_paths, word_cuts, out)
    } else {
        report_rows(text, places, list_paths, list_cuts, out)
    }
}

// Writes all that is printed for the text.
pub fn answer_text(
    text: &[u8],
    labels: &mut [LabelPlace],
    word_paths: &mut [Row<WordSet>],
    word_cuts: &mut [Row<WordSet>],
    list_paths: &mut [Row<ListSet>],
    list_cuts: &mut [Row<ListSet>],
    out: &mut [u8],
) -> Result<Answer, WriteFault>
    ensures { AnswerCall text.now (length out.old) (record { labels = labels.old; word_paths = word_paths.old; word_cuts = word_cuts.old; list_paths = list_paths.old; list_cuts = list_cuts.old }) (record { labels = labels.new; word_paths = word_paths.new; word_cuts = word_cuts.new; list_paths = list_paths.new; list_cuts = list_cuts.new }) out.old result out.new }
{
    let found = report_on(
        text, labels, word_paths, word_cuts, list_paths, list_cuts, out,
    );
    match found {
        Ok(report) => Ok(Answer {
            len: report.len,
            found: Ok(report.verdict),
        }),
        Err(fault) => Ok(Answer {
            len: write_stop(fault.number(), fault.line(), out)?,
            found: Err(fault),
        }),
    }
}
