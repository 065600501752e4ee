//! Routes, next hops and ports that one writer changes and publishes while readers look up, and forwarding by them. No
//! call waits.
//!
//! `writer` and `reader` are the two ends, over two copies of a `fib`. Each publish makes a version. `forwarding`
//! forwards frames where they lie, by the version that a reader has entered: one frame (`frame`) or a burst (`bursts`).
//! `addressed`: what a frame is addressed to.
#![tactic(auto)]

mod addressed;
mod bursts;
mod change;
mod example;
mod fault;
mod fib;
mod form;
mod forwarding;
mod frame;
mod ports;
mod reader;
mod settling;
mod writer;

pub use addressed::{Addressed, addressed_to};
pub use bursts::MAX_FRAMES;
pub use change::Change;
pub use fault::LiveFault;
pub use fib::Fib;
pub use form::Form;
pub use forwarding::{addressed_at, forward, forward_burst, verdict};
pub use frame::{DROP, Frame, TAGGED, fits};
pub use ports::{MAX_HOPS, MAX_PORTS, Port, is_port, is_possible};
pub use reader::RouteReader;
pub use writer::RouteWriter;
