//! Rings without threads: a bounded queue for one thread, and the pure machine of shared rings in single atomic steps.
#![tactic(auto)]

mod looking;
mod marking;
mod member;
mod one_ring;
mod opening;
mod places;
mod plan;
mod reserving;
mod ring;
mod settling;
mod sides;
mod world;

pub use one_ring::{Moved, OneRing};
pub use plan::{WorldFault, WorldPlan};
pub use world::World;
