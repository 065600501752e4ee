//! Removing a route: the member, and then the entries that it changes. No step takes memory.

ghost use Rattle.std.specs.Prelude.{◌≡◌, ◌<◌, ◌≤◌, ◌↔◌, ◌⊎◌, IfErr, OnOk, OnErr};
ghost use Rattle.lpm.specs.Prefixes.{IsDepth};
ghost use Rattle.lpm.specs.Routes.{HasMembers, HasRoute, LacksRoute, without_route};

use super::{MAX_DEPTH, Table};
use crate::fault::RouteFault;
use crate::places::first_of;
use crate::prefix::Prefix;

impl Table {
    /// Removes the route for the first `depth` bits of `addr`. Takes no memory; a group that no route needs any more is
    /// kept for reuse.
    ///
    /// Errors, in this order: 1 `BadDepth` if `depth` is not from 1 to 32, 5 `NoRoute` if there is no such route. An
    /// error leaves the table unchanged.
    pub fn remove(&mut self, addr: u32, depth: u8) -> Result<(), RouteFault>
        ensures ok { OnOk result (HasMembers self.old self.new (without_route self.old addr depth)) }
        ensures was { OnOk result (HasRoute self.old addr depth) }

        ensures bad_depth { (result ≡ Err RouteFault.BadDepth) ↔ (¬ IsDepth depth) }
        ensures no_route { (result ≡ Err RouteFault.NoRoute) ↔ LacksRoute self.old addr depth }
        ensures others { IfErr result (λ fault. (fault ≡ RouteFault.BadDepth) ⊎ (fault ≡ RouteFault.NoRoute)) }

        ensures err { OnErr result (self.new ≡ self.old) }
    {
        if depth == 0 || depth > MAX_DEPTH {
            return Err(RouteFault::BadDepth);
        }
        if depth <= self.levels.bits() {
            self.remove_shallow(addr, depth)
        } else {
            self.remove_deep(addr, depth)
        }
    }

    /// Removes a route that is no deeper than the first level.
    fn remove_shallow(&mut self, addr: u32, depth: u8) -> Result<(), RouteFault>
        requires depth { IsDepth depth }
        requires shallow { depth ≤ self.old.bits }
        ensures ok { OnOk result (HasMembers self.old self.new (without_route self.old addr depth)) }
        ensures was { OnOk result (HasRoute self.old addr depth) }
        ensures missing { OnErr result (LacksRoute self.old addr depth) }
        ensures fault { IfErr result (λ fault. fault ≡ RouteFault.NoRoute) }
        ensures err { OnErr result (self.new ≡ self.old) }
    {
        let prefix = Prefix::of(addr, depth);
        self.members.remove(prefix)?;
        let next = self.members.longest(addr, depth - 1);
        self.levels.overwrite(prefix, next);
        Ok(())
    }

    /// Removes a route that is deeper than the first level. Its entry gives its group back if no other route needs it.
    fn remove_deep(&mut self, addr: u32, depth: u8) -> Result<(), RouteFault>
        requires depth { IsDepth depth }
        requires deep { self.old.bits < depth }
        ensures ok { OnOk result (HasMembers self.old self.new (without_route self.old addr depth)) }
        ensures was { OnOk result (HasRoute self.old addr depth) }
        ensures missing { OnErr result (LacksRoute self.old addr depth) }
        ensures fault { IfErr result (λ fault. fault ≡ RouteFault.NoRoute) }
        ensures err { OnErr result (self.new ≡ self.old) }
    {
        let bits = self.levels.bits();
        let prefix = Prefix::of(addr, depth);
        let first = first_of(prefix.address, bits);
        self.members.remove(prefix)?;
        let next = self.members.longest(addr, depth - 1);
        self.levels.overwrite(prefix, next);
        if !self.members.has_deeper(prefix.address, bits) {
            self.levels.close_group(first);
        }
        Ok(())
    }
}
