// The report of a text.
ghost use Rattle.clib.specs.ReportCalls.{ReportCall};

use crate::memory::{labels, rows};
use writing::answer_text;

// The report of a text, or the STOP line: its length; -1 where `out` is too short for both.
#[unsafe(no_mangle)]
pub extern "C" fn gomzietis_report(text: &[u8], out: &mut [u8]) -> isize
    ensures { ReportCall text.now out.old result out.new }
{
    let answer = answer_text(
        text,
        &mut labels(),
        &mut rows(),
        &mut rows(),
        &mut rows(),
        &mut rows(),
        out,
    );
    match answer {
        Ok(answer) => answer.len as isize,
        Err(_) => -1,
    }
}
