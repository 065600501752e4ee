//! What a pool's caches share, whatever holds their items: what each call returns, as definitions over plain lists, the
//! laws that their proofs cite, and the refusals that these speak of.
#![tactic(auto)]

mod faults;

pub use faults::PoolFault;
