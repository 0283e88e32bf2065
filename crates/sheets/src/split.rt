// The splitter: the line of a text that begins at a place.
ghost use Rattle.std.specs.Prelude.{◌≡◌, ◌≤◌, length, drop, MatchResult};
ghost use Rattle.sheets.specs.Bytes.{Feedless};
ghost use Rattle.sheets.specs.Lines.{Ended};
ghost use Rattle.sheets.specs.declared.split.SplitFault.TheVariants.{Unended};

// A line that no line feed ends, with its number.
#[derive(Clone, Copy, Debug, PartialEq, Eq)]
pub(crate) enum SplitFault {
    Unended(usize),
}

// The line at `at`, of the number `nth`, without its line feed.
pub(crate) fn next_line<'a>(text: &'a [u8], at: usize, nth: usize) -> Result<&'a [u8], SplitFault>
    requires { at ≤ length text.now }
    ensures { MatchResult result (λ line. Ended text.now at line.now) (λ f. (f ≡ Unended nth) × Feedless (drop at text.now)) }
{
    let rest = &text[at..];
    match rest.iter().position(|&b| b == 10) {
        Some(end) => Ok(&rest[..end]),
        None => Err(SplitFault::Unended(nth)),
    }
}
