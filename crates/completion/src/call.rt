// Calls on two tables, and their answers.
use crate::refused::Refused;
use duality::Verdict;

#[derive(Clone, Copy, Debug, PartialEq, Eq)]
pub enum Call<'a> {
    PutPath(&'a [usize]),
    PutCut(&'a [usize]),
    StrikePath(usize),
    StrikeCut(usize),
    Audit,
    // from the drawing with this number
    Complete(usize),
}

#[derive(Clone, Copy, Debug, PartialEq, Eq)]
pub enum Answer {
    // how many rows a put removed
    Removed(usize),
    Struck,
    Said(Verdict),
    Done,
}

// What a call replies.
pub type Reply = Result<Answer, Refused>;
