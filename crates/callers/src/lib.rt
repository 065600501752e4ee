//! Short callers of the libraries. Each shows what follows from the contracts of what it calls, and from nothing else;
//! the pages of the libraries quote them, and tests run them.
#![tactic(auto)]

pub mod caches;
pub mod documents;
pub mod frames;
pub mod one_ring;
pub mod packets;
pub mod reports;
pub mod routes;
pub mod runs;
pub mod sent;
pub mod windows;
