//! Callers: what a ring of a checked plan grants, and where a lap ends, derived from contracts alone.

ghost use Rattle.std.specs.Prelude.{◌≡◌, ◌+◌, ◌<◌, ◌≤◌, ◌^◌, IsTrue, min};

use crate::{Geometry, How, Mode, RingPlan};

/// How many of `n` packets an empty ring for `capacity` packets accepts: all of them, or as many as it was made for.
pub(crate) fn first_burst(capacity: u64, n: u64) -> u64
    requires small { capacity < 2 ^ 20 }
    requires nonzero { 1 ≤ capacity }
    ensures { result ≡ min n capacity }
{
    let geometry = Geometry::exact(capacity).unwrap();
    let plan = RingPlan::same_mode(geometry, Mode::Multi, false);
    How::Burst.granted(n, plan.geometry.capacity())
}

/// A position and the one a lap later have the same slot.
pub(crate) fn laps(geometry: Geometry, position: u64) -> bool
    requires { position + geometry.size < 2 ^ 64 }
    ensures { IsTrue result }
{
    geometry.slot(position) == geometry.slot(position + geometry.size())
}
