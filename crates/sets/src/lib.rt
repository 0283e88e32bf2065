// Set kinds: the interface, and two kinds behind it.
#![tactic(auto)]

pub mod columns;
pub mod kind;
pub mod list;
pub mod marks;
pub mod mask;
pub mod members;
pub mod word;

pub use columns::Columns;
pub use kind::{CannotHold, SetKind};
pub use list::ListSet;
pub use marks::Marks;
pub use mask::Mask;
pub use members::Members;
pub use word::WordSet;
