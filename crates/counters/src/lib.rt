//! The counts of a forwarding run, and its report. Contracts see counts as a record of numbers, and state them for the
//! list of verdicts that were counted.
#![tactic(auto)]

mod counts;
mod laws;
mod report;
mod row;

pub use counts::Counts;
pub use laws::counts_add_up;
