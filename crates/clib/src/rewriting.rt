// A text read and written again.
ghost use Rattle.std.specs.Prelude.{◌≡◌, ◌≤◌, length};
ghost use Rattle.writing.specs.RoundTrips.{LabelsRead};
ghost use Rattle.clib.specs.SheetCalls.{KindSheet, TextSheet, SheetCall};

use crate::memory::{labels, rows};
use sets::{ListSet, SetKind, WordSet};
use sheets::{LabelPlace, read_items, read_rows};
use tables::{Row, Table};
use writing::{TextFault, write_sheet};

// The rows of the text, read into fresh tables of one kind, and written with its labels.
pub(crate) fn rewrite_rows<K: SetKind>(
    text: &[u8],
    places: &[LabelPlace],
    path_memory: &mut [Row<K>],
    cut_memory: &mut [Row<K>],
    out: &mut [u8],
) -> Result<usize, TextFault>
    requires labels { LabelsRead text.now places.now }
    requires few { length places.now ≤ K.top }
    requires path_places { length path_memory.old ≡ 1000 }
    requires cut_places { length cut_memory.old ≡ 1000 }
    ensures { KindSheet K.holds text.now places.now out.old result out.new }
{
    let mut paths = Table::open(path_memory, places.len());
    let mut cuts = Table::open(cut_memory, places.len());
    read_rows(text, places, &mut paths, &mut cuts)?;
    let len = write_sheet(text, places, &paths, &cuts, out)?;
    Ok(len)
}

// The labels and the rows of the text, in words as far as these go, else in lists, and written.
pub(crate) fn rewrite(text: &[u8], out: &mut [u8]) -> Result<usize, TextFault>
    ensures { TextSheet text.now out.old result out.new }
{
    let mut labels = labels();
    let count = read_items(text, &mut labels)?;
    let places = &labels[..count];
    if Table::<WordSet>::judge(count).is_ok() {
        rewrite_rows::<WordSet>(text, places, &mut rows(), &mut rows(), out)
    } else {
        rewrite_rows::<ListSet>(text, places, &mut rows(), &mut rows(), out)
    }
}

// A text read and written again: the length of the sheet text, or minus the number of the refusal.
#[unsafe(no_mangle)]
pub extern "C" fn gomzietis_sheet(text: &[u8], out: &mut [u8]) -> isize
    ensures { SheetCall text.now out.old result out.new }
{
    match rewrite(text, out) {
        Ok(len) => len as isize,
        Err(fault) => -(fault.number() as isize),
    }
}
