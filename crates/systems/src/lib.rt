// States of a system's items, and what the tables and drawings of a system mean.
#![tactic(auto)]

pub mod drawing;
pub mod examples;
pub mod line;
pub mod lines;
pub mod path_rows;
mod spread;
pub mod state;
pub mod wholly;

pub use drawing::Drawing;
pub use line::Line;
pub use lines::LineDrawing;
pub use path_rows::RowDrawing;
pub use state::State;
pub use wholly::{all_down, all_up, alone_up};
