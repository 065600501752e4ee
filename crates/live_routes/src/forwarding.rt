//! What a router does with frames, by the routes, next hops and ports of one publish.
ghost use Rattle.std.specs.Prelude.{◌≡◌, ◌≤◌, All, length, map, option_and_then, unwrap_or};
ghost use Rattle.lpm.specs.Match.{lookup_in};
ghost use Rattle.ipv4.specs.Forwarding.{destination_in};
ghost use Rattle.ipv4.specs.Ports.{way_in};
ghost use Rattle.live_routes.specs.Ports.{sources_of};
ghost use Rattle.live_routes.specs.Addressed.{TellsOf};
ghost use Rattle.live_routes.specs.Frames.{IsWhole, forwarded_in, left, number_of_verdict, sent_count, verdict_by};

use crate::addressed::{Addressed, addressed_to};
use crate::bursts::{count_sent, forward_all};
use crate::fib::Fib;
use crate::frame::{Frame, verdict_number};
use crate::ports::{Port, way_of};
use ipv4::{Hop, Way, destination, forward_along, verdict_along};

/// Where a frame would leave, if nothing is wrong with it.
#[inline]
fn way_for(fib: &Fib<Hop, Port>, frame: &[u8]) -> Option<Way>
    ensures { result ≡ option_and_then (way_in fib.now.hops (sources_of fib.now.ports))
        (lookup_in fib.now.members (unwrap_or (destination_in frame.now) 0)) }
{
    let found = fib.lookup(destination(frame).unwrap_or(0));
    way_of(found, fib.hops(), fib.ports())
}

/// Forwards a frame that had `wire` bytes on the wire, and returns the number of its verdict. Requires: `wire` is at
/// least the number of bytes. Takes no memory.
#[inline]
pub fn forward(fib: &Fib<Hop, Port>, frame: &mut [u8], wire: usize) -> u32
    requires { length frame.old ≤ wire }
    ensures verdict { result ≡ number_of_verdict (forwarded_in fib.now frame.old wire).verdict }
    ensures frame { frame.new ≡ (forwarded_in fib.now frame.old wire).frame }
{
    let way = way_for(fib, frame);
    verdict_number(forward_along(frame, wire, way))
}

/// The number of the verdict on a frame, which stays as it is. Requires: `wire` is at least the number of bytes. Takes
/// no memory.
#[inline]
pub fn verdict(fib: &Fib<Hop, Port>, frame: &[u8], wire: usize) -> u32
    requires { length frame.now ≤ wire }
    ensures { result ≡ number_of_verdict (forwarded_in fib.now frame.now wire).verdict }
{
    let way = way_for(fib, frame);
    verdict_number(verdict_along(frame, wire, way))
}

/// Forwards a burst, and writes the number of each verdict at the place of its frame. Returns how many frames are sent.
/// Requires: at most 64 frames and as many places, no frame with more bytes than it had on the wire. Takes no memory.
pub fn forward_burst(fib: &Fib<Hop, Port>, frames: &mut [Frame<'_>], verdicts: &mut [u32]) -> usize
    requires few { length frames.old ≤ 64 }
    requires whole { All IsWhole frames.old }
    requires places { length verdicts.old ≡ length frames.old }
    ensures verdicts { verdicts.new ≡ map (verdict_by fib.now) frames.old }
    ensures frames { frames.new ≡ map (left fib.now) frames.old }
    ensures sent { result ≡ sent_count verdicts.new }
    ensures most { result ≤ length frames.old }
{
    forward_all(frames, verdicts, fib);
    count_sent(verdicts)
}

/// What a frame is addressed to that came in through the port of this number. `None` if there is no such port. Takes
/// no memory.
pub fn addressed_at(fib: &Fib<Hop, Port>, number: usize, frame: &[u8]) -> Option<Addressed>
    ensures { TellsOf fib.now.ports number frame.now result }
{
    let ports = fib.ports();
    let port = ports.get(number)?;
    Some(addressed_to(frame, &port.mac, ports))
}
