// The library for callers in C: bytes and numbers go in and out, and the memory between lies in the calls.
#![tactic(auto)]

pub mod audits;
pub mod filling;
pub mod memory;
pub mod reports;
pub mod rewriting;
