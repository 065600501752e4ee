//! Rewriting the frame that is sent, in place.
ghost use Rattle.std.specs.Prelude.{◌≡◌, ◌≤◌, length};
ghost use Rattle.ipv4.specs.Fields.{header_of, packet_of};
ghost use Rattle.ipv4.specs.Forwarding.{addressed, lowered, renewed, renewed_checksum, rewritten, with_header};
ghost use Rattle.ipv4.specs.Forwarding.{IsForwardable};

use crate::fields::{offset_of, word_at};
use crate::ports::Way;

/// Writes the two addresses, the time to live and the checksum as they leave.
#[inline]
pub(crate) fn rewrite(frame: &mut [u8], way: &Way)
    requires long { 14 ≤ length frame.old }
    requires right { IsForwardable (packet_of frame.old) }
    ensures { frame.new ≡ rewritten way.now frame.old }
{
    let at = offset_of(frame);
    let (front, packet) = frame.split_at_mut(at);
    address(front, way);
    renew(packet);
}

/// Writes the two addresses.
#[inline]
fn address(front: &mut [u8], way: &Way)
    requires { 12 ≤ length front.old }
    ensures { front.new ≡ addressed way.now front.old }
{
    front[..6].copy_from_slice(&way.to);
    front[6..12].copy_from_slice(&way.from);
}

/// Lowers the time to live by one, and writes the new checksum.
#[inline]
fn renew(packet: &mut [u8])
    requires { IsForwardable packet.old }
    ensures { packet.new ≡ with_header (renewed (header_of packet.old)) packet.old }
{
    let checksum = lowered_checksum(packet);
    packet[8] -= 1;
    packet[10] = (checksum / 256) as u8;
    packet[11] = (checksum % 256) as u8;
}

/// The header's checksum once the time to live is one less. If the old one was correct, it grows by 256, and by one
/// more if there is a carry out of 16 bits; it is never 0xFFFF (RFC 1624, section 3).
#[inline]
fn lowered_checksum(packet: &[u8]) -> u16
    requires { IsForwardable packet.now }
    ensures { result ≡ renewed_checksum (lowered (header_of packet.now)) }
{
    let sum = u32::from(word_at(packet, 10)) + 256;
    (if sum < 0xffff { sum } else { sum - 0xffff }) as u16
}
