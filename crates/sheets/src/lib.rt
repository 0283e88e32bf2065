// Sheet texts: items and their labels, and the rows of two tables, read from a text.
#![tactic(auto)]

pub mod counts;
pub mod items;
pub mod items_fault;
pub mod line;
pub mod look;
pub mod place;
pub mod putting;
pub mod round_trip;
pub mod rows;
pub mod rows_fault;
pub mod skipping;
pub mod split;

pub use counts::check_counts;
pub use items::read_items;
pub use items_fault::ItemsFault;
pub use place::LabelPlace;
pub use rows::read_rows;
pub use rows_fault::RowsFault;

// The most bytes of a text that is read.
pub const MOST_BYTES: usize = 65_535;
