//! The run by one thread, and the parts of every run: a capture in, captures out.
//!
//! `one` is the run by one thread: it judges a record in the reader's buffer, or reads it into a chain and judges that,
//! and hands it to the sink. The run in threads, in `stages`, is made of the same parts: `records` (what the input has
//! next), `packet` (what goes from part to part, and its verdict), `sink` (packets in the order of the input, and their
//! counts), `ports` (the writers, opened and closed) and `summary` (the result of a run).
#![tactic(auto)]

mod fault;
mod one;
mod packet;
mod ports;
mod records;
mod sink;
mod summary;

pub use fault::RunFault;
pub use one::run_one;
pub use packet::{Judged, Unjudged};
pub use ports::Outputs;
pub use ports::close::into_devices;
pub use ports::open::open_all;
pub use records::input_totals::InputTotals;
pub use records::next_record::NextRecord;
pub use records::read_state::ReadState;
pub use records::{input_fault, look, read_record};
pub use sink::Sink;
pub use summary::{Summary, end};
