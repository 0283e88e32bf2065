// What an audit says.
ghost use Rattle.std.specs.Prelude.{Some};
ghost use Rattle.duality.specs.Verdicts.{Shows, verdict_word};

use std::fmt;
use systems::State;

#[derive(Clone, Copy, Debug, PartialEq, Eq)]
pub enum Verdict {
    // both tables describe the same system
    Same,
    // neither table covers the state
    Miss(State),
    // both tables cover the state
    Both(State),
}

impl Verdict {
    // The state shown; the state of 0 items where none is.
    pub fn shown(&self) -> State
        ensures { Shows self.now result }
    {
        match *self {
            Verdict::Same => State::new(0),
            Verdict::Miss(state) | Verdict::Both(state) => state,
        }
    }
}

// The word for it.
impl fmt::Display for Verdict {
    ghost output = { λ verdict. Some (verdict_word verdict) };

    fn fmt<W: fmt::Write>(&self, f: &mut fmt::Formatter<W>) -> fmt::Result {
        match self {
            Verdict::Same => write!(f, "SAME"),
            Verdict::Miss(_) => write!(f, "MISS"),
            Verdict::Both(_) => write!(f, "BOTH"),
        }
    }
}
