//! IPv4 forwarding (RFC 791, RFC 1812 sections 5.2.2 and 5.3.1) of Ethernet frames, also with one 802.1Q tag: the
//! verdict on a frame, and the frame rewritten in place, wherever a chain's segment boundaries are. No call takes
//! memory.
//!
//! What becomes of a frame is one function of its bytes and of its length on the wire, `forwarded` in
//! `specs/Forwarding.antt`: a table of drops, and the frame as it leaves. `verdict`, `forward` and, for a frame in one
//! slice, `forward_frame` return its result, so they always agree.
//!
//! A caller, proved in callers (`told_and_done`): the two verdicts are the same.
//!
//! ```text
//! let told = verdict(table, ports, chain, wire);
//! let done = forward(chain, table, ports, wire);
//! ```
#![tactic(auto)]

mod chains;
mod checksum;
mod fields;
mod found;
mod frame;
mod head;
mod judge;
mod laws;
mod ports;
mod prefetched;
mod rewrite;
mod verdicts;

pub use chains::{forward, forward_prefetched, verdict};
pub use checksum::sum16;
pub use found::{destination, forward_along, verdict_along};
pub use frame::{forward_frame, verdict_of_frame};
pub use laws::{
    a_frame_is_sent_by_a_port, a_looked_up_frame_is_forwarded, a_sent_frame_is_right,
    a_sent_frame_is_sent_again,
};
pub use ports::{Hop, MAX_PORTS, Ports, Way};
pub use prefetched::{LOOKUPS, Lookups, Prefetched, presumed_destination};
pub use verdicts::{Reason, Verdict};
