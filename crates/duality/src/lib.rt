// Whether a path table and a cut table describe the same system.
#![tactic(auto)]

pub mod auditing;
pub mod block;
pub mod choice;
pub mod fault;
pub mod left;
pub mod masks;
pub mod rows;
pub mod search;
pub mod splits;
pub mod tally;
pub mod verdict;

pub use auditing::{audit, check_pair};
pub use fault::PairFault;
pub use search::Search;
pub use verdict::Verdict;
