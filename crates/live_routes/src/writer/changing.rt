//! Changes of what is prepared. Readers don't see them before `publish`.
//!
//! Each call first goes on with the last publish (`settle`). Errors come in the order in which they are named; an error
//! changes nothing that callers see but `settled`.

ghost use Rattle.std.specs.Prelude.{◌≡◌, ◌≤◌, ◌<◌, ◌+◌, ◌^◌, ◌⊎◌, ◌↔◌, true, false, OnOk, OnErr, IfErr, length};
ghost use Rattle.lpm.specs.Prefixes.{IsDepth};
ghost use Rattle.lpm.specs.Routes.{LacksRoute, NeedsTooMany};
ghost use Rattle.live_routes.specs.Forwarding.{routes_of, with_hop, with_port, with_route, without_route};
ghost use Rattle.live_routes.specs.Forwarding.{without_routes};
ghost use Rattle.live_routes.specs.Routing.{Keeps, Prepares, with_prepared};

use super::RouteWriter;
use crate::change::Change;
use crate::fault::LiveFault;

impl<H: Copy, P: Copy> RouteWriter<H, P> {
    /// Adds a route, or changes the number of the next hop of an existing one. Errors: 7 `Pending`, 1 `BadDepth`, 2
    /// `BadHop` if the number is 2^24 or more, 3 `NoGroup`, 4 `Memory`.
    pub fn add(&mut self, addr: u32, depth: u8, hop: u32) -> Result<(), LiveFault>
        ensures ok { OnOk result (Prepares self.old self.new (with_route self.old.prepared addr depth hop)) }
        ensures pending { (result ≡ Err LiveFault.Pending) ↔ (self.new.settled ≡ false) }
        ensures bad_depth { (result ≡ Err LiveFault.BadDepth) ↔ ((self.new.settled ≡ true) × (¬ IsDepth depth)) }
        ensures bad_hop { (result ≡ Err LiveFault.BadHop)
            ↔ ((self.new.settled ≡ true) × IsDepth depth × (2 ^ 24 ≤ hop)) }
        ensures no_group { (result ≡ Err LiveFault.NoGroup)
            ↔ ((self.new.settled ≡ true) × IsDepth depth × (hop < 2 ^ 24)
            × NeedsTooMany (routes_of self.old.prepared) addr depth hop) }
        ensures never { ¬ (result ≡ Err LiveFault.NoRoute) × ¬ (result ≡ Err LiveFault.BadPort) }
        ensures err { OnErr result (Keeps self.old self.new) }
    {
        if self.settle().is_err() {
            return Err(LiveFault::Pending);
        }
        self.add_settled(addr, depth, hop)
    }

    fn add_settled(&mut self, addr: u32, depth: u8, hop: u32) -> Result<(), LiveFault>
        requires { self.old.settled ≡ true }
        ensures ok { OnOk result (self.new ≡ with_prepared self.old (with_route self.old.prepared addr depth hop)) }
        ensures bad_depth { (result ≡ Err LiveFault.BadDepth) ↔ (¬ IsDepth depth) }
        ensures bad_hop { (result ≡ Err LiveFault.BadHop) ↔ (IsDepth depth × (2 ^ 24 ≤ hop)) }
        ensures no_group { (result ≡ Err LiveFault.NoGroup)
            ↔ (IsDepth depth × (hop < 2 ^ 24) × NeedsTooMany (routes_of self.old.prepared) addr depth hop) }
        ensures never { ¬ (result ≡ Err LiveFault.NoRoute) × ¬ (result ≡ Err LiveFault.BadPort)
            × ¬ (result ≡ Err LiveFault.Pending) }
        ensures err { OnErr result (self.new ≡ self.old) }
    {
        let Some(fib) = &mut self.spare else {
            unreachable!()
        };
        if self.log.reserve(1).is_err() {
            return Err(fib.add_refusal(addr, depth, hop));
        }
        fib.add(addr, depth, hop)?;
        self.log.push_back_reserved(Change::Add(addr, depth, hop));
        Ok(())
    }

    /// Removes a route. Errors: 7 `Pending`, 1 `BadDepth`, 5 `NoRoute`, 4 `Memory`.
    pub fn remove(&mut self, addr: u32, depth: u8) -> Result<(), LiveFault>
        ensures ok { OnOk result (Prepares self.old self.new (without_route self.old.prepared addr depth)) }
        ensures pending { (result ≡ Err LiveFault.Pending) ↔ (self.new.settled ≡ false) }
        ensures bad_depth { (result ≡ Err LiveFault.BadDepth) ↔ ((self.new.settled ≡ true) × (¬ IsDepth depth)) }
        ensures no_route { (result ≡ Err LiveFault.NoRoute)
            ↔ ((self.new.settled ≡ true) × LacksRoute (routes_of self.old.prepared) addr depth) }
        ensures never { ¬ (result ≡ Err LiveFault.BadHop) × ¬ (result ≡ Err LiveFault.NoGroup)
            × ¬ (result ≡ Err LiveFault.BadPort) }
        ensures err { OnErr result (Keeps self.old self.new) }
    {
        if self.settle().is_err() {
            return Err(LiveFault::Pending);
        }
        self.remove_settled(addr, depth)
    }

    fn remove_settled(&mut self, addr: u32, depth: u8) -> Result<(), LiveFault>
        requires { self.old.settled ≡ true }
        ensures ok { OnOk result (self.new ≡ with_prepared self.old (without_route self.old.prepared addr depth)) }
        ensures bad_depth { (result ≡ Err LiveFault.BadDepth) ↔ (¬ IsDepth depth) }
        ensures no_route { (result ≡ Err LiveFault.NoRoute) ↔ LacksRoute (routes_of self.old.prepared) addr depth }
        ensures others { IfErr result (λ fault. (fault ≡ LiveFault.BadDepth)
            ⊎ ((fault ≡ LiveFault.NoRoute) ⊎ (fault ≡ LiveFault.Memory))) }
        ensures err { OnErr result (self.new ≡ self.old) }
    {
        let Some(fib) = &mut self.spare else {
            unreachable!()
        };
        if self.log.reserve(1).is_err() {
            return Err(fib.remove_refusal(addr, depth));
        }
        fib.remove(addr, depth)?;
        self.log.push_back_reserved(Change::Remove(addr, depth));
        Ok(())
    }

    /// Removes all routes. Errors: 7 `Pending`, 4 `Memory`.
    pub fn clear(&mut self) -> Result<(), LiveFault>
        ensures ok { OnOk result (Prepares self.old self.new (without_routes self.old.prepared)) }
        ensures pending { (result ≡ Err LiveFault.Pending) ↔ (self.new.settled ≡ false) }
        ensures others { IfErr result (λ fault. (fault ≡ LiveFault.Pending) ⊎ (fault ≡ LiveFault.Memory)) }
        ensures err { OnErr result (Keeps self.old self.new) }
    {
        if self.settle().is_err() {
            return Err(LiveFault::Pending);
        }
        self.clear_settled()
    }

    fn clear_settled(&mut self) -> Result<(), LiveFault>
        requires { self.old.settled ≡ true }
        ensures ok { OnOk result (self.new ≡ with_prepared self.old (without_routes self.old.prepared)) }
        ensures others { IfErr result (λ fault. fault ≡ LiveFault.Memory) }
        ensures err { OnErr result (self.new ≡ self.old) }
    {
        let Some(fib) = &mut self.spare else {
            unreachable!()
        };
        if self.log.reserve(1).is_err() {
            return Err(LiveFault::Memory);
        }
        fib.clear();
        self.log.push_back_reserved(Change::Clear);
        Ok(())
    }

    /// Changes the next hop of that number. Errors: 7 `Pending`, 2 `BadHop` if there is none of that number, 4
    /// `Memory`.
    pub fn set_hop(&mut self, number: u32, hop: H) -> Result<(), LiveFault>
        ensures ok { OnOk result (Prepares self.old self.new (with_hop self.old.prepared number hop)) }
        ensures pending { (result ≡ Err LiveFault.Pending) ↔ (self.new.settled ≡ false) }
        ensures bad_hop { (result ≡ Err LiveFault.BadHop)
            ↔ ((self.new.settled ≡ true) × (length self.old.prepared.hops ≤ number)) }
        ensures others { IfErr result (λ fault. (fault ≡ LiveFault.Pending)
            ⊎ ((fault ≡ LiveFault.BadHop) ⊎ (fault ≡ LiveFault.Memory))) }
        ensures err { OnErr result (Keeps self.old self.new) }
    {
        if self.settle().is_err() {
            return Err(LiveFault::Pending);
        }
        self.set_hop_settled(number, hop)
    }

    fn set_hop_settled(&mut self, number: u32, hop: H) -> Result<(), LiveFault>
        requires { self.old.settled ≡ true }
        ensures ok { OnOk result (self.new ≡ with_prepared self.old (with_hop self.old.prepared number hop)) }
        ensures bad_hop { (result ≡ Err LiveFault.BadHop) ↔ (length self.old.prepared.hops ≤ number) }
        ensures others { IfErr result (λ fault. (fault ≡ LiveFault.BadHop) ⊎ (fault ≡ LiveFault.Memory)) }
        ensures err { OnErr result (self.new ≡ self.old) }
    {
        let Some(fib) = &mut self.spare else {
            unreachable!()
        };
        if self.log.reserve(1).is_err() {
            return Err(fib.hop_refusal(number));
        }
        fib.set_hop(number, hop)?;
        self.log.push_back_reserved(Change::SetHop(number, hop));
        Ok(())
    }

    /// Changes the port of that number. Errors: 7 `Pending`, 6 `BadPort` if there is none of that number, 4 `Memory`.
    pub fn set_port(&mut self, number: u32, port: P) -> Result<(), LiveFault>
        ensures ok { OnOk result (Prepares self.old self.new (with_port self.old.prepared number port)) }
        ensures pending { (result ≡ Err LiveFault.Pending) ↔ (self.new.settled ≡ false) }
        ensures bad_port { (result ≡ Err LiveFault.BadPort)
            ↔ ((self.new.settled ≡ true) × (length self.old.prepared.ports ≤ number)) }
        ensures others { IfErr result (λ fault. (fault ≡ LiveFault.Pending)
            ⊎ ((fault ≡ LiveFault.BadPort) ⊎ (fault ≡ LiveFault.Memory))) }
        ensures err { OnErr result (Keeps self.old self.new) }
    {
        if self.settle().is_err() {
            return Err(LiveFault::Pending);
        }
        self.set_port_settled(number, port)
    }

    fn set_port_settled(&mut self, number: u32, port: P) -> Result<(), LiveFault>
        requires { self.old.settled ≡ true }
        ensures ok { OnOk result (self.new ≡ with_prepared self.old (with_port self.old.prepared number port)) }
        ensures bad_port { (result ≡ Err LiveFault.BadPort) ↔ (length self.old.prepared.ports ≤ number) }
        ensures others { IfErr result (λ fault. (fault ≡ LiveFault.BadPort) ⊎ (fault ≡ LiveFault.Memory)) }
        ensures err { OnErr result (self.new ≡ self.old) }
    {
        let Some(fib) = &mut self.spare else {
            unreachable!()
        };
        if self.log.reserve(1).is_err() {
            return Err(fib.port_refusal(number));
        }
        fib.set_port(number, port)?;
        self.log.push_back_reserved(Change::SetPort(number, port));
        Ok(())
    }
}
