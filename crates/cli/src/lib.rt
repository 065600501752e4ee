//! The program `pktkit` without its `main`: its arguments, files, devices, faults and exit statuses. A crate of its
//! own, so that its tests are in a crate above it and know it by its contracts.
#![tactic(auto)]

mod command_line;
mod entry;
mod fault;
mod one_line;
mod other_format;
mod progress;
mod run_answer;
mod same_file;
mod workers;

pub use command_line::requests::skip_program_name;
pub use entry::{program, report_out_of_memory};
pub use fault::Fault;
pub use other_format::OtherFormat;
pub use workers::workers_for;
