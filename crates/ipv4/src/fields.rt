//! The fields of a frame and of an IPv4 header.
ghost use Rattle.std.specs.Prelude.{◌≡◌, ◌<◌, ◌≤◌, ◌+◌, length};
ghost use Rattle.ipv4.specs.Bytes.{word_at};
ghost use Rattle.ipv4.specs.Fields.{destination_of, header_len, is_tagged, offset_of};

/// The length of two addresses and a type, in bytes.
pub(crate) const ETHERNET: usize = 14;

/// The length of the shortest header, in bytes.
pub(crate) const SHORTEST: usize = 20;

/// The length of an 802.1Q tag, in bytes.
const TAG: usize = 4;

/// The type of a tag (IEEE 802.1Q section 9.6).
const TAGGED: u16 = 0x8100;

/// The type of IPv4 (RFC 894).
pub(crate) const IPV4: u16 = 0x0800;

/// The 16-bit number formed by byte `i` and the next one.
#[inline]
pub(crate) fn word_at(bytes: &[u8], i: usize) -> u16
    requires { i + 1 < length bytes.now }
    ensures { result ≡ word_at bytes.now i }
{
    u16::from_be_bytes([bytes[i], bytes[i + 1]])
}

/// Whether the frame has an 802.1Q tag.
#[inline]
pub(crate) fn is_tagged(frame: &[u8]) -> bool
    requires { 14 ≤ length frame.now }
    ensures { result ≡ is_tagged frame.now }
{
    word_at(frame, 12) == TAGGED
}

/// The offset at which the packet begins.
#[inline]
pub(crate) fn offset_of(frame: &[u8]) -> usize
    requires { 14 ≤ length frame.now }
    ensures value { result ≡ offset_of frame.now }
    ensures least { 14 ≤ result }
    ensures most { result ≤ 18 }
{
    if is_tagged(frame) {
        ETHERNET + TAG
    } else {
        ETHERNET
    }
}

/// The length of the header with its options, in bytes.
#[inline]
pub(crate) fn header_len(packet: &[u8]) -> usize
    requires { 0 < length packet.now }
    ensures value { result ≡ header_len packet.now }
    ensures most { result ≤ 60 }
{
    4 * (packet[0] % 16) as usize
}

/// The address that the packet goes to.
#[inline]
pub(crate) fn destination_of(packet: &[u8]) -> u32
    requires { 20 ≤ length packet.now }
    ensures { result ≡ destination_of packet.now }
{
    u32::from(word_at(packet, 16)) * 0x1_0000 + u32::from(word_at(packet, 18))
}
