//! Short callers, and what they know of a packet from the clauses of its calls alone.
ghost use Rattle.std.specs.Prelude.{◌≡◌, length, replicate, OnOk};
ghost use Rattle.mbuf.specs.Buffer.{overwritten};
ghost use Rattle.mbuf.specs.Chain.{bytes_of, HasSameSegments, part_of};

use mbuf::{Chain, ChainFault};

/// Puts a header before a packet and takes it off again: the packet is unchanged.
pub fn with_header(packet: &mut Chain, header: &[u8]) -> Result<(), ChainFault>
    ensures { OnOk result (bytes_of packet.new ≡ bytes_of packet.old) }
{
    packet.prepend(header)?;
    packet.adj(header.len())
}

/// Clears the bytes of the first segment: the others are unchanged, and so are all segments.
pub fn blank_front(packet: &mut Chain)
    ensures written { let zeros = replicate (length (part_of packet.old 0)) 0 in
        bytes_of packet.new ≡ overwritten 0 zeros (bytes_of packet.old) }
    ensures kept { HasSameSegments packet.new packet.old }
{
    let _some = packet.segments();
    packet.part_mut(0).fill(0);
}
