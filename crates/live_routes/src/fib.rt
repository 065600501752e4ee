//! What a router forwards by, the forwarding information base: routes, next hops and ports.

ghost use Rattle.std.specs.Prelude.{◌≡◌, ◌<◌, ◌↔◌, ◌⊎◌, ℕ, Some, None, IfOk, IfErr, IfSome, IfNone, length, map};
ghost use Rattle.std.specs.Prelude.{slice_get};
ghost use Rattle.std.specs.FinMap as map_of;
ghost use Rattle.lpm.specs.Match.{lookup_in};
ghost use Rattle.lpm.specs.Prefixes.{IsDepth, IsMember, prefix_of};
ghost use Rattle.lpm.specs.Listing.{IsFirstFrom, NoneFrom};
ghost use Rattle.lpm.specs.Routes.{LacksRoute};
ghost use Rattle.live_routes.specs.Forwarding.{opening, routes_of};

use crate::form::Form;
use lpm::{NextHop, Route, RouteFault, Table};
use std::alloc::{AllocError, Global};
use std::marker::Model;

mod changing;

/// Routes to the numbers of next hops, the next hops, and the ports. `H` and `P` are the caller's types of a next hop
/// and a port.
#[derive(Drop)]
pub struct Fib<H: Copy, P: Copy> {
    table: Table,
    hops: Vec<H>,
    ports: Vec<P>,
}

impl<H: Copy, P: Copy> Model for Fib<H, P> {
    ghost use Rattle.live_routes.specs.Forwarding.{Forwarding, forwarding_code};

    ghost Value = { Forwarding H P };

    ghost coded = { forwarding_code H.code P.code };

    ghost view = { λ f. record {
      bits = f.table.bits;
      limit = f.table.limit;
      members = f.table.members;
      hops = f.hops.items;
      ports = f.ports.items;
    } };
}

impl<H: Copy, P: Copy> Fib<H, P> {
    /// No routes, and these next hops and ports. The routes' table has this form, a first level of 2^`bits` entries
    /// and at most `groups` groups. Returns `Err` only if out of memory.
    pub fn new(
        alloc: Global,
        form: Form,
        bits: u8,
        groups: u32,
        hops: &[H],
        ports: &[P],
    ) -> Result<Fib<H, P>, AllocError>
        requires { (bits ≡ 16) ⊎ (bits ≡ 24) }
        ensures { IfOk result (λ f. f ≡ opening bits groups hops.now ports.now) }
    {
        let table = match form {
            Form::Whole => Table::new(alloc, bits, groups)?,
            Form::Sparse => Table::sparse(alloc, bits, groups)?,
        };
        let mut own_hops = Vec::new(alloc);
        own_hops.extend_from_slice(hops)?;
        let mut own_ports = Vec::new(alloc);
        own_ports.extend_from_slice(ports)?;
        Ok(Fib {
            table,
            hops: own_hops,
            ports: own_ports,
        })
    }

    /// The number of the next hop of the longest route that covers the address. Takes no memory.
    #[inline]
    pub fn lookup(&self, addr: u32) -> Option<u32>
        ensures { result ≡ lookup_in self.now.members addr }
    {
        self.table.lookup(addr)
    }

    /// Looks up a burst of addresses: at each index of `hops` is then what `lookup` returns for the address there.
    /// Takes no memory.
    pub fn lookup_burst(&self, addresses: &[u32], hops: &mut [NextHop])
        requires { length addresses.now ≡ length hops.old }
        ensures { hops.new ≡ map (lookup_in self.now.members) addresses.now }
    {
        self.table.lookup_bulk(addresses, hops);
    }

    /// The next hop of that number, if there is one.
    #[inline]
    pub fn hop(&self, number: u32) -> Option<H>
        ensures { result ≡ slice_get self.now.hops number }
    {
        self.hops.get(number as usize).copied()
    }

    /// The port of that number, if there is one.
    #[inline]
    pub fn port(&self, number: u32) -> Option<P>
        ensures { result ≡ slice_get self.now.ports number }
    {
        self.ports.get(number as usize).copied()
    }

    /// The table of the routes.
    #[inline]
    pub fn table(&self) -> &Table
        ensures { result.now.members ≡ self.now.members }
    {
        &self.table
    }

    /// The next hops, by their numbers.
    #[inline]
    pub fn hops(&self) -> &[H]
        ensures { result.now ≡ self.now.hops }
    {
        self.hops.as_slice()
    }

    /// The ports, by their numbers.
    #[inline]
    pub fn ports(&self) -> &[P]
        ensures { result.now ≡ self.now.ports }
    {
        self.ports.as_slice()
    }

    /// The number of the next hop of exactly this route. Errors: 1 `BadDepth`, 5 `NoRoute`, in this order.
    pub fn get(&self, addr: u32, depth: u8) -> Result<u32, RouteFault>
        ensures ok { IfOk result (λ hop. IsDepth depth
            × (map_of.get self.now.members (prefix_of addr depth) ≡ Some hop)) }
        ensures bad_depth { (result ≡ Err RouteFault.BadDepth) ↔ (¬ IsDepth depth) }
        ensures no_route { (result ≡ Err RouteFault.NoRoute) ↔ LacksRoute (routes_of self.now) addr depth }
        ensures others { IfErr result (λ fault. (fault ≡ RouteFault.BadDepth) ⊎ (fault ≡ RouteFault.NoRoute)) }
    {
        self.table.get(addr, depth)
    }

    /// How many routes there are.
    pub fn len(&self) -> usize
        ensures { result ≡ map_of.len self.now.members }
    {
        self.table.len()
    }

    /// The first route that is not before this address and depth, as lpm's `next_route`.
    pub fn next_route(&self, addr: u32, depth: u8) -> Option<Route>
        ensures found { IfSome result
            (λ r. IsFirstFrom self.now.members (record { address = addr; depth = depth })
            (record { address = r.address; depth = r.depth }) r.hop) }
        ensures member { IfSome result (λ r. IsMember (record { address = r.address; depth = r.depth }) r.hop) }
        ensures none { IfNone result (NoneFrom self.now.members (record { address = addr; depth = depth })) }
    {
        self.table.next_route(addr, depth)
    }
}
