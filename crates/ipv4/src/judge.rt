//! The verdict on a frame whose header is contiguous.
ghost use Rattle.std.specs.Prelude.{◌≡◌, ◌≤◌, ◌==◌, IfErr, IfOk, IfSome, None, OnOk, Some, length};
ghost use Rattle.ipv4.specs.Checksum.{ones_complement_sum};
ghost use Rattle.ipv4.specs.Fields.{header_len, header_of, packet_of};
ghost use Rattle.ipv4.specs.Forwarding.{drops, first_reason, judged, way_from};
ghost use Rattle.ipv4.specs.Prefetched.{IsPrefetched};

use crate::checksum::sum16;
use crate::fields::{ETHERNET, IPV4, SHORTEST, destination_of, header_len, offset_of, word_at};
use crate::ports::{Ports, Way};
use crate::prefetched::{Prefetched, next_hop};
use crate::verdicts::Reason;
use lpm::Table;

/// The way of the frame, or why it is dropped.
#[inline]
#[tactic(auto, unfolding(crate::specs::Forwarding::judged))]
pub(crate) fn judge(
    frame: &[u8],
    table: &Table,
    ports: &Ports,
    wire: usize,
    prefetched: Option<Prefetched>,
) -> Result<Way, Reason>
    requires wire { length frame.now ≤ wire }
    requires prefetched { IfSome prefetched (IsPrefetched table.now.members) }
    ensures { result ≡ judged table.now.members ports.now frame.now wire }
{
    let packet = checked(frame, wire)?;
    way_from(packet, table, ports, prefetched).ok_or(Reason::NoRoute)
}

/// The frame's packet, if no test before the lookup drops it; otherwise the first reason, in the order of the table of
/// reasons.
#[inline]
pub(crate) fn checked(frame: &[u8], wire: usize) -> Result<&[u8], Reason>
    requires { length frame.now ≤ wire }
    ensures passed { OnOk result (first_reason (drops frame.now wire) ≡ None) }
    ensures packet { IfOk result (λ packet. packet.now ≡ packet_of frame.now) }
    ensures headed { IfOk result (λ packet. 20 ≤ length packet.now) }
    ensures dropped { IfErr result (λ reason. first_reason (drops frame.now wire) ≡ Some reason) }
{
    if frame.len() < ETHERNET {
        return Err(Reason::Short);
    }
    let at = offset_of(frame);
    if frame.len() < at {
        return Err(Reason::Short);
    }
    if word_at(frame, at - 2) != IPV4 {
        return Err(Reason::NotIpv4);
    }
    let packet = frame.split_at(at).1;
    if packet.len() < SHORTEST {
        return Err(Reason::Short);
    }
    if packet[0] / 16 != 4 {
        return Err(Reason::BadHeader);
    }
    let len = header_len(packet);
    if len < SHORTEST {
        return Err(Reason::BadHeader);
    }
    if packet.len() < len {
        return Err(Reason::Short);
    }
    let total = word_at(packet, 2) as usize;
    if total < len {
        return Err(Reason::BadLength);
    }
    if total > wire - at {
        return Err(Reason::BadLength);
    }
    if !is_summed(packet, len) {
        return Err(Reason::BadChecksum);
    }
    if packet[8] < 2 {
        return Err(Reason::Expired);
    }
    Ok(packet)
}

/// Whether the header's checksum is right. Nearly all headers have no options: with their length as a constant, the
/// compiler makes five additions of the sum.
#[inline(always)]
fn is_summed(packet: &[u8], len: usize) -> bool
    requires header { len ≡ header_len packet.now }
    requires whole { len ≤ length packet.now }
    ensures { result ≡ (ones_complement_sum (header_of packet.now) == 0xFFFF) }
{
    if len == SHORTEST {
        return sum16(packet.split_at(SHORTEST).0) == 0xffff;
    }
    sum16(packet.split_at(len).0) == 0xffff
}

/// Where the longest match of the packet's destination leads.
#[inline(always)]
fn way_from(
    packet: &[u8],
    table: &Table,
    ports: &Ports,
    prefetched: Option<Prefetched>,
) -> Option<Way>
    requires whole { 20 ≤ length packet.now }
    requires prefetched { IfSome prefetched (IsPrefetched table.now.members) }
    ensures { result ≡ way_from table.now.members ports.now packet.now }
{
    let hop = next_hop(table, prefetched, destination_of(packet))?;
    ports.way(hop)
}
