//! A run as contracts see it: the output that it makes from its input.
#![tactic(auto)]

mod laws;
mod run;

pub use laws::{runs_add_up, worked_outputs};
pub use run::Run;
