//! Lookups that are made before their frames are judged, several together, so that the memory of the route table is
//! waited for once for all of them.
ghost use Rattle.std.specs.Prelude.{◌≡◌, ◌≤◌, ◌<◌, ◌↔◌, IfSome, IsSome, drop, length, slice_index_or};
ghost use Rattle.lpm.specs.Prefixes.{Members};
ghost use Rattle.lpm.specs.Match.{lookup_in};
ghost use Rattle.ipv4.specs.Fields.{destination_of};
ghost use Rattle.ipv4.specs.Prefetched.{AreLookedUp, IsPrefetched};

use crate::fields::{ETHERNET, SHORTEST, destination_of};
use lpm::{NextHop, Table};

/// How many addresses are looked up together.
pub const LOOKUPS: usize = 64;

/// An address, and what a lookup of it returned.
#[derive(Clone, Copy)]
pub struct Prefetched {
    pub(crate) address: u32,
    pub(crate) hop: NextHop,
}

/// Addresses, and what a lookup of each returned.
#[derive(Drop)]
pub struct Lookups {
    addresses: [u32; LOOKUPS],
    hops: [NextHop; LOOKUPS],
}

impl Lookups {
    /// Looks these addresses up. Takes no memory.
    pub fn of(table: &Table, addresses: [u32; LOOKUPS]) -> Lookups
        ensures value { AreLookedUp table.now.members result }
        ensures addresses { result.addresses ≡ addresses }
    {
        let mut hops = [NextHop::none(); LOOKUPS];
        table.lookup_bulk(&addresses, &mut hops);
        Lookups { addresses, hops }
    }

    /// The lookup at this index; `None` from `LOOKUPS` on.
    #[inline]
    pub fn get(&self, i: usize) -> Option<Prefetched>
        ensures there { IsSome result ↔ (i < 64) }
        ensures address { IfSome result (λ earlier. earlier.address ≡ slice_index_or self.now.addresses i 0) }
        ensures looked_up { (routes : Members) → AreLookedUp routes self.now → IfSome result (IsPrefetched routes) }
    {
        if i >= LOOKUPS {
            return None;
        }
        Some(Prefetched {
            address: self.addresses[i],
            hop: self.hops[i],
        })
    }
}

/// The destination of a frame that is taken for an untagged IPv4 frame, for a lookup ahead of its verdict; 0 if it is
/// too short for one.
#[inline]
pub fn presumed_destination(frame: &[u8]) -> u32
    ensures { 34 ≤ length frame.now → result ≡ destination_of (drop 14 frame.now) }
{
    if frame.len() < ETHERNET + SHORTEST {
        return 0;
    }
    destination_of(frame.split_at(ETHERNET).1)
}

/// The next hop of an address: from the earlier lookup if that was of the same address, otherwise from the table.
#[inline(always)]
pub(crate) fn next_hop(table: &Table, prefetched: Option<Prefetched>, address: u32) -> Option<u32>
    requires prefetched { IfSome prefetched (IsPrefetched table.now.members) }
    ensures { result ≡ lookup_in table.now.members address }
{
    if let Some(earlier) = prefetched {
        if earlier.address == address {
            return earlier.hop.hop();
        }
    }
    table.lookup(address)
}
