//! Packet buffers (DPDK Programmer's Guide, "Mbuf Library"): segments with headroom and tailroom, packets as chains of
//! them, and shares of packets whose segments are returned with their last mention.
//!
//! A caller, proved in callers:
//!
//! ```text
//! fn with_header(packet: &mut Chain, header: &[u8]) -> Result<(), ChainFault>
//!     ensures { OnOk result (bytes_of packet.new ≡ bytes_of packet.old) }
//! {
//!     packet.prepend(header)?;
//!     packet.adj(header.len())
//! }
//! ```
#![tactic(auto)]

mod buffers;
mod bytes;
mod chain;
mod deck;
mod ends;
mod entry;
mod fault;
mod fill;
mod joins;
mod link;
mod link_bytes;
mod parts;
mod segment;
mod share_table;
mod walk;

pub use buffers::make;
pub use chain::{Chain, MAX_SEGMENTS};
pub use deck::Deck;
pub use fault::{ChainFault, DeckFault};
