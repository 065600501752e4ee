//! Longest-prefix match over IPv4 addresses, with the behaviour of DPDK's rte_lpm: a first level of entries, and groups
//! below it, so that a lookup is one or two loads, and one or two more in a sparse table. Contracts see a table as the
//! finite map of its members, from prefixes to next hops.
//!
//! A caller, proved in callers (`sole_route`): the only route of a table is the longest match for the address it
//! was added with, so `found` is `Some(hop)`.
//!
//! ```text
//! let mut table = Table::new(alloc, 16, 1)?;
//! table.add(addr, depth, hop)?;
//! let found = table.lookup(addr);
//! ```
#![tactic(auto)]

mod entry;
mod fault;
mod first_level;
mod levels;
mod members;
mod next_hop;
mod overwrite;
mod packed_entry;
mod places;
mod prefix;
mod route;
mod table;

pub use entry::Entry;
pub use fault::RouteFault;
pub use next_hop::NextHop;
pub use prefix::Prefix;
pub use route::Route;
pub use table::Table;
