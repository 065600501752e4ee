//! Adding a route: memory first, then the member, then the entries that it changes.

ghost use Rattle.std.specs.Prelude.{◌≡◌, ◌<◌, ◌≤◌, ◌^◌, ◌↔◌, ◌⊎◌, IfErr, OnOk, OnErr};
ghost use Rattle.lpm.specs.Prefixes.{IsDepth};
ghost use Rattle.lpm.specs.Routes.{Accepts, HasMembers, NeedsTooMany, with_route};

use super::{MAX_DEPTH, Table};
use crate::fault::RouteFault;
use crate::packed_entry::PackedEntry;
use crate::places::first_of;
use crate::prefix::Prefix;

/// One more than the maximum next hop.
pub(super) const HOPS: u32 = 1 << 24;

impl Table {
    /// Adds a route for the first `depth` bits of `addr`, or changes the next hop of an existing one.
    ///
    /// Errors, in this order: 1 `BadDepth` if `depth` is not from 1 to 32, 2 `BadHop` if `hop` is 2^24 or more, 3
    /// `NoGroup` if the route would need more groups than the table may have, 4 `Memory`. An error leaves the table
    /// unchanged.
    pub fn add(&mut self, addr: u32, depth: u8, hop: u32) -> Result<(), RouteFault>
        ensures ok { OnOk result (HasMembers self.old self.new (with_route self.old addr depth hop)) }
        ensures accepted { OnOk result (Accepts self.old addr depth hop) }

        ensures bad_depth { (result ≡ Err RouteFault.BadDepth) ↔ (¬ IsDepth depth) }
        ensures bad_hop { (result ≡ Err RouteFault.BadHop) ↔ (IsDepth depth × (2 ^ 24 ≤ hop)) }
        ensures no_group { (result ≡ Err RouteFault.NoGroup)
            ↔ (IsDepth depth × (hop < 2 ^ 24) × NeedsTooMany self.old addr depth hop) }
        ensures memory { result ≡ Err RouteFault.Memory → Accepts self.old addr depth hop }
        ensures never { ¬ (result ≡ Err RouteFault.NoRoute) }

        ensures err { OnErr result (self.new ≡ self.old) }
    {
        if depth == 0 || depth > MAX_DEPTH {
            return Err(RouteFault::BadDepth);
        }
        if hop >= HOPS {
            return Err(RouteFault::BadHop);
        }
        if depth <= self.levels.bits() {
            self.add_shallow(addr, depth, hop)
        } else {
            self.add_deep(addr, depth, hop)
        }
    }

    /// Adds a route that is no deeper than the first level.
    fn add_shallow(&mut self, addr: u32, depth: u8, hop: u32) -> Result<(), RouteFault>
        requires depth { IsDepth depth }
        requires hop { hop < 2 ^ 24 }
        requires shallow { depth ≤ self.old.bits }
        ensures ok { OnOk result (HasMembers self.old self.new (with_route self.old addr depth hop)) }
        ensures fits { ¬ NeedsTooMany self.old addr depth hop }
        ensures memory { IfErr result (λ fault. fault ≡ RouteFault.Memory) }
        ensures err { OnErr result (self.new ≡ self.old) }
    {
        let prefix = Prefix::of(addr, depth);
        self.members.insert(prefix, hop)?;
        self.levels
            .overwrite(prefix, PackedEntry::route(depth, hop));
        Ok(())
    }

    /// Adds a route that is deeper than the first level, so its first bits need a group.
    fn add_deep(&mut self, addr: u32, depth: u8, hop: u32) -> Result<(), RouteFault>
        requires depth { IsDepth depth }
        requires hop { hop < 2 ^ 24 }
        requires deep { self.old.bits < depth }
        ensures ok { OnOk result (HasMembers self.old self.new (with_route self.old addr depth hop)) }
        ensures no_group { (result ≡ Err RouteFault.NoGroup) ↔ NeedsTooMany self.old addr depth hop }
        ensures others { IfErr result (λ fault. (fault ≡ RouteFault.NoGroup) ⊎ (fault ≡ RouteFault.Memory)) }
        ensures err { OnErr result (self.new ≡ self.old) }
    {
        let prefix = Prefix::of(addr, depth);
        let first = first_of(prefix.address, self.levels.bits());
        self.levels.reserve_group(first)?;
        self.members.insert(prefix, hop)?;
        self.levels.ensure_group(first);
        self.levels
            .overwrite(prefix, PackedEntry::route(depth, hop));
        Ok(())
    }
}
