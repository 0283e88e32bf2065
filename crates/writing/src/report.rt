// The report of an audit.
ghost use Rattle.std.specs.Prelude.{ℕ, ◌+◌, ◌<◌, ◌≤◌, ◌^◌, List, map, length};
ghost use Rattle.sets.specs.Sets.{Numbers};
ghost use Rattle.systems.specs.States.{up};
ghost use Rattle.tables.specs.Pasts.{Past};
ghost use Rattle.tables.specs.Tables.{Holds};
ghost use Rattle.sheets.specs.Labels.{named};
ghost use Rattle.writing.specs.Pages.{Wrote};
ghost use Rattle.writing.specs.Reports.{rows_line, state_line, state_lines, verdict_lines, report_text, IsReport};
ghost use Rattle.writing.specs.Writes.{Outputs, Writes};

use crate::checks::check;
use crate::columns::columns;
use crate::fault::WriteFault;
use crate::page::Page;
use duality::{Verdict, audit};
use sets::SetKind;
use sheets::LabelPlace;
use systems::State;
use tables::Table;

// What a report says, but for the labels.
#[derive(Clone, Copy)]
pub(crate) struct Report {
    pub(crate) paths: usize,
    pub(crate) cuts: usize,
    pub(crate) verdict: Verdict,
}

// Puts the line of an item: whether it is up, its number and its label.
pub(crate) fn put_mark(page: &mut Page, is_up: bool, item: usize, label: &[u8])
    requires { page.old.len + length (state_line is_up item label.now) < 2 ^ 64 }
    ensures { Wrote page.old page.new (state_line is_up item label.now) }
{
    page.put(if is_up { b"  UP" } else { b"DOWN" });
    page.put(b" ");
    page.put(&columns::<3>(item));
    page.put(b" ");
    page.put(label);
    page.put(b"\n");
}

// Puts the lines of the items, as the state has them.
pub(crate) fn put_state(page: &mut Page, text: &[u8], places: &[LabelPlace], state: &State)
    requires { page.old.len + length (state_lines (up state.now) 0 (map (named text.now) places.now)) < 2 ^ 64 }
    ensures { Wrote page.old page.new (state_lines (up state.now) 0 (map (named text.now) places.now)) }
{
    for (item, place) in places.iter().enumerate() {
        put_mark(page, state.is_up(item), item, place.label(text));
    }
}

// Puts the line with the numbers of cuts and of paths.
pub(crate) fn put_counts(page: &mut Page, cuts: usize, paths: usize)
    requires { page.old.len + length (rows_line cuts paths) < 2 ^ 64 }
    ensures { Wrote page.old page.new (rows_line cuts paths) }
{
    page.put(b"ROWS ");
    page.put(&columns::<5>(cuts));
    page.put(b" ");
    page.put(&columns::<5>(paths));
    page.put(b"\n");
}

// Puts the line of the verdict, and the lines of the state that it shows.
pub(crate) fn put_verdict(page: &mut Page, text: &[u8], places: &[LabelPlace], verdict: &Verdict)
    requires { page.old.len + length (verdict_lines (map (named text.now) places.now) verdict.now) < 2 ^ 64 }
    ensures { Wrote page.old page.new (verdict_lines (map (named text.now) places.now) verdict.now) }
{
    match verdict {
        Verdict::Same => page.put(b"SAME\n"),
        Verdict::Miss(state) => {
            page.put(b"MISS\n");
            put_state(page, text, places, state);
        }
        Verdict::Both(state) => {
            page.put(b"BOTH\n");
            put_state(page, text, places, state);
        }
    }
}

// Puts the whole report.
pub(crate) fn put_report(page: &mut Page, text: &[u8], places: &[LabelPlace], report: &Report)
    requires { page.old.len + length (report_text (map (named text.now) places.now) report.now.paths report.now.cuts report.now.verdict) < 2 ^ 64 }
    ensures { Wrote page.old page.new (report_text (map (named text.now) places.now) report.now.paths report.now.cuts report.now.verdict) }
{
    put_counts(page, report.cuts, report.paths);
    put_verdict(page, text, places, &report.verdict);
}

// Writes a report, and answers its length.
pub(crate) fn write_verdict(
    text: &[u8],
    places: &[LabelPlace],
    report: &Report,
    out: &mut [u8],
) -> Result<usize, WriteFault>
    requires few { length places.now ≤ 256 }
    requires short { length text.now ≤ 65535 }
    ensures { Outputs (report_text (map (named text.now) places.now) report.now.paths report.now.cuts report.now.verdict) out.old result out.new }
{
    let mut measure = Page::new(&mut []);
    put_report(&mut measure, text, places, report);
    let len = measure.len();
    if len > out.len() {
        return Err(WriteFault::NoRoom(len));
    }
    put_report(&mut Page::new(out), text, places, report);
    Ok(len)
}

// Audits the two tables, writes the report, and answers its length. The labels lie in `text`, at the places.
pub fn write_report<K: SetKind>(
    text: &[u8],
    places: &[LabelPlace],
    paths: &Table<K>,
    cuts: &Table<K>,
    out: &mut [u8],
) -> Result<usize, WriteFault>
    ensures { (p c : ℕ) (ps cs : List Numbers) → Holds K.mem paths.now p ps → Holds K.mem cuts.now c cs → Writes p c text.now (length places.now) (λ bs. Past p paths.now.capacity cuts.now.capacity K.holds ps cs → IsReport p (map (named text.now) places.now) ps cs bs) out.old result out.new }
{
    check(text, places.len(), paths, cuts)?;
    let report = Report {
        paths: paths.row_count(),
        cuts: cuts.row_count(),
        verdict: audit(paths, cuts)?,
    };
    write_verdict(text, places, &report, out)
}
