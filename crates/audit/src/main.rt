// The program: reads a sheet text from standard input, and prints the report of its tables or the STOP line.
#![tactic(auto)]

ghost use Rattle.std.specs.Prelude.{◌≡◌, if◌then◌else◌, MatchResult};

mod explain;
mod printing;
#[cfg(test)]
mod tests;

use printing::{Output, printed, read};
use std::env;
use std::io::{self, Write};
use std::process::ExitCode;

// Reads the text and prints what is written for it; with `--explain`, also a sentence on standard error.
fn run(rt: &HostRuntime, explained: bool) -> io::Result<()> {
    let text = read(rt.alloc(), rt.reader())?;
    let Output { bytes, sentence } = printed(rt.alloc(), text.as_slice(), explained)?;
    io::writer(rt).write_all(bytes.as_slice())?;
    if let Some(sentence) = sentence {
        eprintln!(rt; "{sentence}")?;
    }
    Ok(())
}

// Whether to explain; nothing for a word that the program does not know.
fn explained(rt: &HostRuntime) -> io::Result<Option<bool>> {
    let mut explained = false;
    for word in env::args(rt)?.skip(1) {
        if word.as_str() != "--explain" {
            return Ok(None);
        }
        explained = true;
    }
    Ok(Some(explained))
}

// Does what the words say, if the program knows them, and answers whether it does.
fn start(rt: &HostRuntime) -> io::Result<bool> {
    match explained(rt)? {
        Some(explained) => {
            run(rt, explained)?;
            Ok(true)
        }
        None => {
            eprintln!(rt; "usage: audit [--explain] < SHEET")?;
            Ok(false)
        }
    }
}

// The status: 0 where all is done, 2 for a word that the program does not know, 1 where memory, reading or writing failed.
fn status(known: io::Result<bool>) -> u8
    ensures { MatchResult known (λ known. result ≡ (if known then 0 else 2)) (λ _. result ≡ 1) }
{
    match known {
        Ok(true) => 0,
        Ok(false) => 2,
        Err(_) => 1,
    }
}

fn main(rt: HostRuntime) -> ExitCode {
    ExitCode::from(status(start(&rt)))
}
