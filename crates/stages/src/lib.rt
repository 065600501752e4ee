//! A run in threads: a capture in, captures out.
//!
//! `run` starts the threads, over three rings: `threads` has what each of them does, and what is on the rings.
//! `stage_fault` is why a stage can't continue, and `laws` compares runs. The parts that it shares with the run by one
//! thread, and that run, are in `run_one`.
#![tactic(auto)]

mod laws;
mod run;
mod stage_fault;
mod threads;

pub use laws::workers_change_nothing;
pub use run::run_threads;
pub use run_one::{Judged, RunFault, Summary, Unjudged, run_one};
pub use threads::gate::{Gate, Open};
pub use threads::item::{FreeSegment, RingItem};
pub use threads::worker::{Worked, work};
