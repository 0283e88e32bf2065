// Figures from empty tables to their verdict: each call is printed with its answer.
#![tactic(auto)]

mod bridge;
mod cooling;
mod sheet;
mod show;

use std::io;

fn main(rt: HostRuntime) -> io::Result<()> {
    sheet::read(&rt)?;
    bridge::typed(&rt)?;
    bridge::wrong_count(&rt)?;
    bridge::drawn(&rt)?;
    cooling::typed(&rt)?;
    cooling::drawn(&rt)?;
    sheet::write(&rt)
}
