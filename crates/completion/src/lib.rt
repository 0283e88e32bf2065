// Both tables of a figure filled from its drawing.
#![tactic(auto)]

pub mod call;
pub mod completing;
pub mod dual;
pub mod fault;
pub mod filling;
pub mod offering;
pub mod refused;
pub mod running;
pub mod shrinking;
pub mod side;
pub mod tightening;

pub use call::{Answer, Call, Reply};
pub use completing::complete;
pub use fault::CompletionFault;
pub use refused::Refused;
pub use running::{Replayed, replay};
pub use side::Side;
