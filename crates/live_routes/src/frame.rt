//! A frame that lies in memory of the caller's, and what becomes of one.
ghost use Rattle.std.specs.Prelude.{◌≡◌, ◌≤◌, ◌<◌, ◌↔◌, IsTrue, length};
ghost use Rattle.live_routes.specs.Frames.{HasSmallPort, IsWhole, address_of, found_number, left_by};
ghost use Rattle.live_routes.specs.Frames.{number_of_verdict};
ghost use Rattle.live_routes.specs.Ports.{sources_of};

use crate::ports::{Port, way_of};
use ipv4::{Hop, Verdict, destination, forward_along};
use lpm::NextHop;

/// What is added to the port of a frame that has an 802.1Q tag.
pub const TAGGED: u32 = 0x1_0000;

/// What is added to the number of the reason why a frame is dropped.
pub const DROP: u32 = 0x2_0000;

/// A frame: the bytes of it that are there, and how many it had on the wire.
#[repr(C)]
#[derive(Drop)]
pub struct Frame<'a> {
    pub bytes: &'a mut [u8],
    pub wire: usize,
}

/// Whether a frame had at least as many bytes on the wire as are there.
pub fn fits(frame: &Frame<'_>) -> bool
    ensures { IsTrue result ↔ IsWhole frame.now }
{
    frame.bytes.len() <= frame.wire
}

/// The number of a verdict: its port, and `TAGGED` if the frame has a tag; or `DROP` and the number of the reason.
/// Requires: the port is below 2^16.
#[inline]
pub fn verdict_number(verdict: Verdict) -> u32
    requires { HasSmallPort verdict }
    ensures { result ≡ number_of_verdict verdict }
{
    match verdict {
        Verdict::Send { port, tagged } => { if tagged { port + TAGGED } else { port } }
        Verdict::Drop(reason) => DROP + u32::from(reason.number()),
    }
}

/// The address to look up for a frame; 0 if it has none.
#[inline]
pub(crate) fn address_of(frame: &Frame<'_>) -> u32
    ensures { result ≡ address_of frame.now }
{
    destination(frame.bytes).unwrap_or(0)
}

/// Forwards a frame for whose destination a lookup found this hop, with these next hops and ports. Returns the number
/// of the verdict.
#[inline]
pub(crate) fn forward_in(frame: &mut Frame<'_>, found: NextHop, hops: &[Hop], ports: &[Port]) -> u32
    requires whole { IsWhole frame.old }
    ensures verdict { result ≡ found_number hops.now (sources_of ports.now) found frame.old }
    ensures frame { frame.new ≡ left_by hops.now (sources_of ports.now) found frame.old }
{
    verdict_number(forward_along(frame.bytes, frame.wire, way_of(found.hop(), hops, ports)))
}
