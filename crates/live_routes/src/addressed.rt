//! What a frame is addressed to: what a router looks at beside the verdict, to tell which frames are for itself.
ghost use Rattle.std.specs.Prelude.{◌≡◌, ◌↔◌, ◌≤◌, Any, IsTrue, length};
ghost use Rattle.live_routes.specs.Addressed.{IsBroadcast, IsDirectedBroadcast, IsMulticast, IsOwn, IsToGroup, IsToPort};
ghost use Rattle.live_routes.specs.Addressed.{Tells, bits_of};

use crate::ports::Port;
use ipv4::destination;

/// What a frame is addressed to. `own`, `multicast` and `broadcast` are of the packet's destination, and false if the
/// frame has no IPv4 packet.
#[derive(Clone, Copy, Debug, PartialEq, Eq)]
pub struct Addressed {
    /// The frame goes to the hardware address of the port (IEEE 802.3 section 3.2.4).
    pub port: bool,
    /// The frame goes to a group of stations, or to all: it is a link-layer multicast or broadcast (RFC 1812 section
    /// 5.3.4, IEEE 802.3 section 3.2.3).
    pub group: bool,
    /// The packet goes to an address of one of the ports (RFC 1812 section 5.2.3).
    pub own: bool,
    /// The packet goes to a host group, 224.0.0.0 to 239.255.255.255 (RFC 1112 section 4, RFC 1122 section 3.2.1.3).
    pub multicast: bool,
    /// The packet goes to 255.255.255.255 or to all hosts of a port's net (RFC 1812 section 5.3.5, RFC 1122 section
    /// 3.2.1.3).
    pub broadcast: bool,
}

impl Addressed {
    /// As bits: 1 `port`, 2 `group`, 4 `own`, 8 `multicast`, 16 `broadcast`.
    pub fn bits(self) -> u32
        ensures { result ≡ bits_of self }
    {
        u32::from(self.port)
            + 2 * u32::from(self.group)
            + 4 * u32::from(self.own)
            + 8 * u32::from(self.multicast)
            + 16 * u32::from(self.broadcast)
    }
}

/// Whether the address is that of the port.
fn is_own(port: &Port, address: u32) -> bool
    ensures { IsTrue result ↔ IsOwn address port.now }
{
    port.depth > 0 && port.address == address
}

/// Whether the address is that of all hosts of the port's net.
fn is_directed(port: &Port, address: u32) -> bool
    ensures { IsTrue result ↔ IsDirectedBroadcast address port.now }
{
    let depth = port.depth;
    if depth == 0 || depth > 30 {
        return false;
    }
    let size = 1u64 << (32 - depth);
    u64::from(address) == u64::from(port.address) / size * size + (size - 1)
}

/// Whether the address is that of a host group.
fn is_multicast(address: u32) -> bool
    ensures { IsTrue result ↔ IsMulticast address }
{
    address >> 28 == 14
}

/// Whether one of the ports has this address.
fn is_any_own(ports: &[Port], address: u32) -> bool
    ensures { IsTrue result ↔ Any (IsOwn address) ports.now }
{
    ports.iter().any(|port| is_own(port, address))
}

/// Whether the address is that of all hosts, or of all hosts of a port's net.
fn is_broadcast(ports: &[Port], address: u32) -> bool
    ensures { IsTrue result ↔ IsBroadcast ports.now address }
{
    address == u32::MAX || ports.iter().any(|port| is_directed(port, address))
}

/// Whether a frame goes to this hardware address.
fn is_to_port(frame: &[u8], mac: &[u8; 6]) -> bool
    ensures { IsTrue result ↔ IsToPort mac.now frame.now }
{
    frame.len() >= 14 && frame[..6] == mac[..]
}

/// Whether a frame goes to a group of stations or to all.
fn is_to_group(frame: &[u8]) -> bool
    ensures { IsTrue result ↔ IsToGroup frame.now }
{
    frame.len() >= 14 && frame[0] % 2 == 1
}

/// What a frame is addressed to that came in through a port with this hardware address, by the IPv4 addresses of all
/// `ports`. Takes no memory.
pub fn addressed_to(frame: &[u8], mac: &[u8; 6], ports: &[Port]) -> Addressed
    ensures { Tells ports.now mac.now frame.now result }
{
    let port = is_to_port(frame, mac);
    let group = is_to_group(frame);
    match destination(frame) {
        Some(address) => Addressed {
            port,
            group,
            own: is_any_own(ports, address),
            multicast: is_multicast(address),
            broadcast: is_broadcast(ports, address),
        },
        None => Addressed {
            port,
            group,
            own: false,
            multicast: false,
            broadcast: false,
        },
    }
}
