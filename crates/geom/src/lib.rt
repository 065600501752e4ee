//! The geometry of rings: how many slots a ring has and how many items it holds, which slot a position has, the modes
//! of its two sides, and the packed word of a head/tail-sync side. No call takes memory.
//!
//! A caller, proved in `example.rt`: an empty ring made for `capacity` items grants a first burst of up to `capacity`
//! items, and the `unwrap` can't fail.
//!
//! ```text
//! let geometry = Geometry::exact(capacity).unwrap();
//! let plan = RingPlan::same_mode(geometry, Mode::Multi, false);
//! How::Burst.granted(n, plan.geometry.capacity())  // the smaller of n and capacity
//! ```
#![tactic(auto)]

#[cfg(test)]
mod example;
mod geometry;
mod plan;
mod word;

pub use geometry::{GeomFault, Geometry, MAX_CAPACITY};
pub use plan::{How, MAX_ACTORS, MAX_BUFFERS, MAX_RINGS, Mode, RingPlan, Side, all_fit};
pub use word::{LAST, RESERVED_RANGE, pack, unpack};
