// What goes out: sheet texts, reports and the STOP line, written into output memory that the caller lends.
#![tactic(auto)]

pub mod answer;
pub mod checks;
pub mod columns;
pub mod fault;
pub mod page;
pub mod report;
pub mod sheet;
pub mod stop;
pub mod text_fault;

pub use answer::{Answer, answer_text};
pub use fault::WriteFault;
pub use report::write_report;
pub use sheet::write_sheet;
pub use stop::write_stop;
pub use text_fault::TextFault;
