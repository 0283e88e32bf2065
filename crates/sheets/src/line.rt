// A line taken apart.
ghost use Rattle.std.specs.Prelude.{◌≡◌, ◌≢◌, ℕ, ◌<◌, [], ◌∷◌, ◌++◌, codes, Decides, MatchOption, MatchResult};
ghost use Rattle.sheets.specs.Bytes.{Label, Row, right};
ghost use Rattle.sheets.specs.Runs.{Visible, Named};
ghost use Rattle.sheets.specs.Lines.{IsItem, Says, Begins, Unformed, NoItem, line_fault};
ghost use Rattle.sheets.specs.declared.line.LineFault.TheVariants.{Bad};

use crate::split::SplitFault;

#[derive(Clone, Copy)]
pub(crate) enum Line<'a> {
    Item { number: usize, label: &'a [u8] },
    Path(&'a [u8]),
    Cuts(&'a [u8]),
}

// A line that is not formed, with its number.
#[derive(Clone, Copy, Debug, PartialEq, Eq)]
pub(crate) enum LineFault {
    Bad(usize),
}

impl From<SplitFault> for LineFault {
    ghost from_gives = { λ f g. g ≡ line_fault f };

    fn from(f: SplitFault) -> LineFault {
        match f {
            SplitFault::Unended(nth) => LineFault::Bad(nth),
        }
    }
}

// The number below 1,000 that stands right-justified in three columns.
#[tactic(auto, using(crate::proofs::Columns::columns_kind))]
pub(crate) fn read_number(a: u8, b: u8, c: u8) -> Option<usize>
    ensures { MatchOption result ((n : ℕ) → n < 1000 → right 3 n ≢ a ∷ b ∷ c ∷ []) (λ n. (n < 1000) × (right 3 n ≡ a ∷ b ∷ c ∷ [])) }
{
    match (a, b, c) {
        (b' ', b' ', b'0'..=b'9') => Some(usize::from(c - 48)),
        (b' ', b'1'..=b'9', b'0'..=b'9') => Some(usize::from(b - 48) * 10 + usize::from(c - 48)),
        (b'1'..=b'9', b'0'..=b'9', b'0'..=b'9') => {
            Some(usize::from(a - 48) * 100 + usize::from(b - 48) * 10 + usize::from(c - 48))
        }
        _ => None,
    }
}

// Whether a label may have the byte.
pub(crate) fn is_visible(b: u8) -> bool
    ensures { Decides result (Visible b) }
{
    (33..=126).contains(&b)
}

// Whether the bytes are a label.
pub(crate) fn is_label(s: &[u8]) -> bool
    ensures { Decides result (Label s.now) }
{
    (1..=12).contains(&s.len()) && s.iter().all(|&b| is_visible(b))
}

// What stands behind the head, if the bytes begin with it.
pub(crate) fn behind<'a>(s: &'a [u8], head: &[u8]) -> Option<&'a [u8]>
    ensures { MatchOption result (Begins s.now head.now → ⊥) (λ rest. s.now ≡ head.now ++ rest.now) }
{
    s.strip_prefix(head)
}

// The label that stands in front behind a space, and what is left behind it.
pub(crate) fn cut_label<'a>(s: &'a [u8]) -> Option<(&'a [u8], &'a [u8])>
    ensures { MatchOption result (Row s.now → s.now ≡ []) (λ p. Named s.now p.0.now p.1.now) }
{
    let names = behind(s, b" ")?;
    let end = names
        .iter()
        .position(|&b| !is_visible(b))
        .unwrap_or(names.len());
    let (label, rest) = names.split_at(end);
    is_label(label).then_some((label, rest))
}

// Whether the bytes are what stands behind the head of a row: a space and a label for each item.
pub(crate) fn is_row(s: &[u8]) -> bool
    ensures { Decides result (Row s.now) }
{
    let mut rest = s;
    while !rest.is_empty() {
        let Some((_, left)) = cut_label(rest) else {
            return false;
        };
        rest = left;
    }
    true
}

// The number and the label of the ITEM line that has these bytes behind its first space.
pub(crate) fn item_parts<'a>(rest: &'a [u8]) -> Option<(usize, &'a [u8])>
    ensures { MatchOption result (NoItem (codes "ITEM " ++ rest.now)) (λ p. IsItem p.0 p.1.now (codes "ITEM " ++ rest.now)) }
{
    let [a, b, c, tail @ ..] = rest else {
        return None;
    };
    let number = read_number(*a, *b, *c)?;
    let label = behind(tail, b" ")?;
    is_label(label).then_some((number, label))
}

// The line taken apart, if it is formed.
pub(crate) fn take_apart<'a>(line: &'a [u8]) -> Option<Line<'a>>
    ensures { MatchOption result (Unformed line.now) (λ v. Says v line.now) }
{
    if let Some(rest) = behind(line, b"ITEM ") {
        let (number, label) = item_parts(rest)?;
        return Some(Line::Item { number, label });
    }
    if let Some(row) = behind(line, b"PATH") {
        return is_row(row).then_some(Line::Path(row));
    }
    if let Some(row) = behind(line, b"CUTS") {
        return is_row(row).then_some(Line::Cuts(row));
    }
    None
}

// The line of the number `nth` taken apart, or that it is not formed.
pub(crate) fn parse<'a>(line: &'a [u8], nth: usize) -> Result<Line<'a>, LineFault>
    ensures { MatchResult result (λ v. Says v line.now) (λ f. (f ≡ Bad nth) × Unformed line.now) }
{
    take_apart(line).ok_or(LineFault::Bad(nth))
}
