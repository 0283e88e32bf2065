// The STOP line.
ghost use Rattle.std.specs.Prelude.{◌+◌, ◌<◌, ◌^◌, length};
ghost use Rattle.writing.specs.Pages.{Wrote};
ghost use Rattle.writing.specs.Reports.{stop_text};
ghost use Rattle.writing.specs.Writes.{Outputs};

use crate::columns::columns;
use crate::fault::WriteFault;
use crate::page::Page;

// Puts the STOP line.
pub(crate) fn put_stop(page: &mut Page, number: usize, line: usize)
    requires { page.old.len + length (stop_text number line) < 2 ^ 64 }
    ensures { Wrote page.old page.new (stop_text number line) }
{
    page.put(b"STOP ");
    page.put(&columns::<3>(number));
    page.put(b" ");
    page.put(&columns::<5>(line));
    page.put(b"\n");
}

// Writes the STOP line of a refusal and its line, 0 if there is none, and answers its length.
pub fn write_stop(number: usize, line: usize, out: &mut [u8]) -> Result<usize, WriteFault>
    ensures { Outputs (stop_text number line) out.old result out.new }
{
    let mut measure = Page::new(&mut []);
    put_stop(&mut measure, number, line);
    let len = measure.len();
    if len > out.len() {
        return Err(WriteFault::NoRoom(len));
    }
    put_stop(&mut Page::new(out), number, line);
    Ok(len)
}
