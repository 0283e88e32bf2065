// The two tables of a figure.
ghost use Rattle.std.specs.Prelude.{Some};
ghost use Rattle.completion.specs.Completions.{side_word};

use std::fmt;

#[derive(Clone, Copy, Debug, PartialEq, Eq)]
pub enum Side {
    Paths,
    Cuts,
}

impl fmt::Display for Side {
    ghost output = { λ side. Some (side_word side) };

    fn fmt<W: fmt::Write>(&self, f: &mut fmt::Formatter<W>) -> fmt::Result {
        match self {
            Side::Paths => write!(f, "paths"),
            Side::Cuts => write!(f, "cuts"),
        }
    }
}
