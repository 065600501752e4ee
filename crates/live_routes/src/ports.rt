//! The ports of a router, and where the next hops lead.
ghost use Rattle.std.specs.Prelude.{◌≡◌, ◌≤◌, ◌↔◌, IsTrue, option_and_then, slice_get};
ghost use Rattle.ipv4.specs.Ports.{way_in};
ghost use Rattle.live_routes.specs.Ports.{IsPossible, sources_of};

use ipv4::{Hop, Way};

/// The maximum number of ports.
pub const MAX_PORTS: usize = 256;

/// The maximum number of next hops: the hop numbers of routes are below it.
pub const MAX_HOPS: usize = 0x100_0000;

/// A port: its IPv4 address, its hardware address, and how many first bits of the IPv4 address are the prefix of its
/// net; 0 if it has no address. `zero` is ignored.
#[repr(C)]
#[derive(Clone, Copy, Debug, PartialEq, Eq)]
pub struct Port {
    pub address: u32,
    pub mac: [u8; 6],
    pub depth: u8,
    pub zero: u8,
}

/// Whether there can be such a port: the prefix has at most 32 bits.
pub fn is_port(port: &Port) -> bool
    ensures { IsTrue result ↔ port.now.depth ≤ 32 }
{
    port.depth <= 32
}

/// Whether a router can have these ports and next hops: at most 256 ports and 2^24 next hops, and no prefix of more
/// than 32 bits.
pub fn is_possible(ports: &[Port], hops: &[Hop]) -> bool
    ensures { IsTrue result ↔ IsPossible ports.now hops.now }
{
    ports.len() <= MAX_PORTS && hops.len() <= MAX_HOPS && ports.iter().all(|port| port.depth <= 32)
}

/// The hardware address of a port; `None` if there is no port of the number.
#[inline]
fn source_of(ports: &[Port], number: u32) -> Option<[u8; 6]>
    ensures { result ≡ slice_get (sources_of ports.now) number }
{
    let at = number as usize;
    if at >= MAX_PORTS || at >= ports.len() {
        return None;
    }
    Some(ports[at].mac)
}

/// Where the next hop leads whose number a lookup found. `None` if no route was found, if there is no next hop of the
/// number, or if that names a port that isn't there.
#[inline]
pub(crate) fn way_of(found: Option<u32>, hops: &[Hop], ports: &[Port]) -> Option<Way>
    ensures { result ≡ option_and_then (way_in hops.now (sources_of ports.now)) found }
{
    let hop = found? as usize;
    if hop >= hops.len() {
        return None;
    }
    let Hop { port, to } = hops[hop];
    let from = source_of(ports, port)?;
    Some(Way { port, to, from })
}
