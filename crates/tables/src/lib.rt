// Path and cut tables over row memory that the caller lends.
#![tactic(auto)]

pub mod fault;
pub mod gather;
pub mod memory;
pub mod past;
pub mod replies;
pub mod row;
pub mod table;

pub use fault::TableFault;
pub use row::Row;
pub use table::Table;
