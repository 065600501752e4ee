//! Whether a route would be refused, before anything is changed.

ghost use Rattle.std.specs.Prelude.{◌≡◌, ◌<◌, ◌≤◌, ◌^◌, ◌↔◌, Some, IsTrue};
ghost use Rattle.lpm.specs.Prefixes.{IsDepth};
ghost use Rattle.lpm.specs.Routes.{NeedsTooMany};

use super::adding::HOPS;
use super::{MAX_DEPTH, Table};
use crate::fault::RouteFault;
use crate::places::first_of;
use crate::prefix::Prefix;

impl Table {
    /// What `add` would refuse this route for, if there is memory: 1 `BadDepth`, 2 `BadHop` or 3 `NoGroup`, in this
    /// order. Takes no memory.
    pub fn refusal(&self, addr: u32, depth: u8, hop: u32) -> Option<RouteFault>
        ensures bad_depth { (result ≡ Some RouteFault.BadDepth) ↔ (¬ IsDepth depth) }
        ensures bad_hop { (result ≡ Some RouteFault.BadHop) ↔ (IsDepth depth × (2 ^ 24 ≤ hop)) }
        ensures no_group { (result ≡ Some RouteFault.NoGroup)
            ↔ (IsDepth depth × (hop < 2 ^ 24) × NeedsTooMany self.now addr depth hop) }
        ensures never { (¬ (result ≡ Some RouteFault.Memory)) × (¬ (result ≡ Some RouteFault.NoRoute)) }
    {
        if depth == 0 || depth > MAX_DEPTH {
            return Some(RouteFault::BadDepth);
        }
        if hop >= HOPS {
            return Some(RouteFault::BadHop);
        }
        if self.would_need(addr, depth, hop) {
            return Some(RouteFault::NoGroup);
        }
        None
    }

    /// Whether the routes with this one would need more groups than there may be.
    fn would_need(&self, addr: u32, depth: u8, hop: u32) -> bool
        requires depth { IsDepth depth }
        requires hop { hop < 2 ^ 24 }
        ensures { IsTrue result ↔ NeedsTooMany self.now addr depth hop }
    {
        let bits = self.levels.bits();
        if depth <= bits {
            return false;
        }
        let prefix = Prefix::of(addr, depth);
        let first = first_of(prefix.address, bits);
        self.levels.lacks_group(first)
    }
}
