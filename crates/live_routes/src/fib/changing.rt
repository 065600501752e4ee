//! Changes of one copy. An error changes nothing.

ghost use Rattle.std.specs.Prelude.{◌≡◌, ◌<◌, ◌≤◌, ◌^◌, ◌↔◌, ◌⊎◌, IfErr, OnOk, OnErr, length};
ghost use Rattle.lpm.specs.Prefixes.{IsDepth};
ghost use Rattle.lpm.specs.Routes.{LacksRoute, NeedsTooMany};
ghost use Rattle.live_routes.specs.Changes.{applied};
ghost use Rattle.live_routes.specs.Forwarding.{routes_of, with_hop, with_port, with_route, without_route};
ghost use Rattle.live_routes.specs.Forwarding.{without_routes};

use super::Fib;
use crate::change::Change;
use crate::fault::LiveFault;

impl<H: Copy, P: Copy> Fib<H, P> {
    /// Adds a route, or changes the next hop of an existing one. Errors, in this order: 1 `BadDepth`, 2 `BadHop`, 3
    /// `NoGroup`, 4 `Memory`.
    pub fn add(&mut self, addr: u32, depth: u8, hop: u32) -> Result<(), LiveFault>
        ensures ok { OnOk result (self.new ≡ with_route self.old addr depth hop) }
        ensures bad_depth { (result ≡ Err LiveFault.BadDepth) ↔ (¬ IsDepth depth) }
        ensures bad_hop { (result ≡ Err LiveFault.BadHop) ↔ (IsDepth depth × (2 ^ 24 ≤ hop)) }
        ensures no_group { (result ≡ Err LiveFault.NoGroup)
            ↔ (IsDepth depth × (hop < 2 ^ 24) × NeedsTooMany (routes_of self.old) addr depth hop) }
        ensures others { ¬ (result ≡ Err LiveFault.NoRoute) × ¬ (result ≡ Err LiveFault.BadPort)
            × ¬ (result ≡ Err LiveFault.Pending) }
        ensures err { OnErr result (self.new ≡ self.old) }
    {
        match self.table.add(addr, depth, hop) {
            Ok(()) => Ok(()),
            Err(fault) => Err(LiveFault::of(fault)),
        }
    }

    /// What `add` would return where no memory is left: 1 `BadDepth`, 2 `BadHop`, 3 `NoGroup` or 4 `Memory`.
    pub fn add_refusal(&self, addr: u32, depth: u8, hop: u32) -> LiveFault
        ensures bad_depth { (result ≡ LiveFault.BadDepth) ↔ (¬ IsDepth depth) }
        ensures bad_hop { (result ≡ LiveFault.BadHop) ↔ (IsDepth depth × (2 ^ 24 ≤ hop)) }
        ensures no_group { (result ≡ LiveFault.NoGroup)
            ↔ (IsDepth depth × (hop < 2 ^ 24) × NeedsTooMany (routes_of self.now) addr depth hop) }
        ensures others { ¬ (result ≡ LiveFault.NoRoute) × ¬ (result ≡ LiveFault.BadPort)
            × ¬ (result ≡ LiveFault.Pending) }
    {
        match self.table.refusal(addr, depth, hop) {
            Some(fault) => LiveFault::of(fault),
            None => LiveFault::Memory,
        }
    }

    /// Removes a route. Takes no memory. Errors, in this order: 1 `BadDepth`, 5 `NoRoute`.
    pub fn remove(&mut self, addr: u32, depth: u8) -> Result<(), LiveFault>
        ensures ok { OnOk result (self.new ≡ without_route self.old addr depth) }
        ensures bad_depth { (result ≡ Err LiveFault.BadDepth) ↔ (¬ IsDepth depth) }
        ensures no_route { (result ≡ Err LiveFault.NoRoute) ↔ LacksRoute (routes_of self.old) addr depth }
        ensures others { IfErr result (λ fault. (fault ≡ LiveFault.BadDepth) ⊎ (fault ≡ LiveFault.NoRoute)) }
        ensures err { OnErr result (self.new ≡ self.old) }
    {
        match self.table.remove(addr, depth) {
            Ok(()) => Ok(()),
            Err(fault) => Err(LiveFault::of(fault)),
        }
    }

    /// What `remove` would return where no memory is left for the writer's list: 1 `BadDepth`, 5 `NoRoute` or 4
    /// `Memory`.
    pub fn remove_refusal(&self, addr: u32, depth: u8) -> LiveFault
        ensures bad_depth { (result ≡ LiveFault.BadDepth) ↔ (¬ IsDepth depth) }
        ensures no_route { (result ≡ LiveFault.NoRoute) ↔ LacksRoute (routes_of self.now) addr depth }
        ensures others { (result ≡ LiveFault.BadDepth) ⊎ ((result ≡ LiveFault.NoRoute) ⊎ (result ≡ LiveFault.Memory)) }
    {
        match self.table.get(addr, depth) {
            Ok(_) => LiveFault::Memory,
            Err(fault) => LiveFault::of(fault),
        }
    }

    /// Removes all routes. Takes no memory.
    pub fn clear(&mut self)
        ensures { self.new ≡ without_routes self.old }
    {
        self.table.clear();
    }

    /// Changes a next hop. The only error is 2 `BadHop`, if there is none of that number.
    pub fn set_hop(&mut self, number: u32, hop: H) -> Result<(), LiveFault>
        ensures ok { OnOk result (self.new ≡ with_hop self.old number hop) }
        ensures bad_hop { (result ≡ Err LiveFault.BadHop) ↔ (length self.old.hops ≤ number) }
        ensures others { IfErr result (λ fault. fault ≡ LiveFault.BadHop) }
        ensures err { OnErr result (self.new ≡ self.old) }
    {
        let at = number as usize;
        if at >= self.hops.len() {
            return Err(LiveFault::BadHop);
        }
        self.hops[at] = hop;
        Ok(())
    }

    /// Changes a port. The only error is 6 `BadPort`, if there is none of that number.
    pub fn set_port(&mut self, number: u32, port: P) -> Result<(), LiveFault>
        ensures ok { OnOk result (self.new ≡ with_port self.old number port) }
        ensures bad_port { (result ≡ Err LiveFault.BadPort) ↔ (length self.old.ports ≤ number) }
        ensures others { IfErr result (λ fault. fault ≡ LiveFault.BadPort) }
        ensures err { OnErr result (self.new ≡ self.old) }
    {
        let at = number as usize;
        if at >= self.ports.len() {
            return Err(LiveFault::BadPort);
        }
        self.ports[at] = port;
        Ok(())
    }

    /// What `set_hop` would return where no memory is left for the writer's list.
    pub fn hop_refusal(&self, number: u32) -> LiveFault
        ensures bad_hop { (result ≡ LiveFault.BadHop) ↔ (length self.now.hops ≤ number) }
        ensures others { (result ≡ LiveFault.BadHop) ⊎ (result ≡ LiveFault.Memory) }
    {
        if number as usize >= self.hops.len() {
            LiveFault::BadHop
        } else {
            LiveFault::Memory
        }
    }

    /// What `set_port` would return where no memory is left for the writer's list.
    pub fn port_refusal(&self, number: u32) -> LiveFault
        ensures bad_port { (result ≡ LiveFault.BadPort) ↔ (length self.now.ports ≤ number) }
        ensures others { (result ≡ LiveFault.BadPort) ⊎ (result ≡ LiveFault.Memory) }
    {
        if number as usize >= self.ports.len() {
            LiveFault::BadPort
        } else {
            LiveFault::Memory
        }
    }

    /// Makes one change.
    pub fn apply(&mut self, change: Change<H, P>) -> Result<(), LiveFault>
        ensures ok { OnOk result (self.new ≡ applied self.old change) }
        ensures err { OnErr result (self.new ≡ self.old) }
    {
        match change {
            Change::Add(addr, depth, hop) => self.add(addr, depth, hop),
            Change::Remove(addr, depth) => self.remove(addr, depth),
            Change::Clear => {
                self.clear();
                Ok(())
            }
            Change::SetHop(number, hop) => self.set_hop(number, hop),
            Change::SetPort(number, port) => self.set_port(number, port),
        }
    }
}
