//! Numbers in either byte order, and the header of a file.
ghost use Rattle.std.specs.Prelude.{◌≡◌, ◌≢◌, ◌+◌, ◌≤◌, ◌↔◌, length, IfOk, IfErr, IfSome, IfNone, IsTrue};
ghost use Rattle.pcapio_laws.specs.Capture.{field, short_field, HasMagic, HasNoMagic, HasVersion, HasLink};
ghost use Rattle.pcapio_laws.specs.Capture.{HasHeader, IsRefused};

use byteorder::{BigEndian, ByteOrder as Endian, LittleEndian};
use pcapio_laws::{ByteOrder, CapFault, Resolution};

/// The length of a file's header, in bytes (pcap-savefile(5)).
pub const FILE_HEADER: usize = 24;

/// The number in two bytes.
fn short_field(order: ByteOrder, bytes: &[u8], offset: usize) -> u16
    requires { offset + 2 ≤ length bytes.now }
    ensures { result ≡ short_field order offset bytes.now }
{
    match order {
        ByteOrder::Little => LittleEndian::read_u16(&bytes[offset..]),
        ByteOrder::Big => BigEndian::read_u16(&bytes[offset..]),
    }
}

/// The number in four bytes, from byte `offset` on.
#[inline]
pub fn field(order: ByteOrder, bytes: &[u8], offset: usize) -> u32
    requires { offset + 4 ≤ length bytes.now }
    ensures { result ≡ field order offset bytes.now }
{
    match order {
        ByteOrder::Little => LittleEndian::read_u32(&bytes[offset..]),
        ByteOrder::Big => BigEndian::read_u32(&bytes[offset..]),
    }
}

/// The fields of the file's header at the start of the bytes, or why it is refused: 1 `NotPcap`, 2 `BadVersion`, 3
/// `BadLink`, in this order. Requires: there are at least `FILE_HEADER` bytes.
pub fn header_in(bytes: &[u8]) -> Result<(ByteOrder, Resolution), CapFault>
    requires { 24 ≤ length bytes.now }
    ensures ok { IfOk result (λ said. HasHeader bytes.now said.0 said.1) }
    ensures err { IfErr result (IsRefused bytes.now) }
    ensures only { IfErr result (λ fault. fault ≢ CapFault.BadRecord) }
{
    let Some((order, resolution)) = magic_in(bytes) else {
        return Err(CapFault::NotPcap);
    };
    if !has_version(bytes, order) {
        return Err(CapFault::BadVersion);
    }
    if !has_link(bytes, order) {
        return Err(CapFault::BadLink);
    }
    Ok((order, resolution))
}

/// The byte order in which the first four bytes are a magic, and the resolution of this magic.
fn magic_in(bytes: &[u8]) -> Option<(ByteOrder, Resolution)>
    requires { 4 ≤ length bytes.now }
    ensures found { IfSome result (λ said. HasMagic bytes.now said.0 said.1) }
    ensures none { IfNone result (HasNoMagic bytes.now) }
{
    match &bytes[..4] {
        [0xd4, 0xc3, 0xb2, 0xa1] => Some((ByteOrder::Little, Resolution::Micro)),
        [0x4d, 0x3c, 0xb2, 0xa1] => Some((ByteOrder::Little, Resolution::Nano)),
        [0xa1, 0xb2, 0xc3, 0xd4] => Some((ByteOrder::Big, Resolution::Micro)),
        [0xa1, 0xb2, 0x3c, 0x4d] => Some((ByteOrder::Big, Resolution::Nano)),
        _ => None,
    }
}

fn has_version(bytes: &[u8], order: ByteOrder) -> bool
    requires { 24 ≤ length bytes.now }
    ensures { IsTrue result ↔ HasVersion bytes.now order }
{
    short_field(order, bytes, 4) == 2 && short_field(order, bytes, 6) == 4
}

fn has_link(bytes: &[u8], order: ByteOrder) -> bool
    requires { 24 ≤ length bytes.now }
    ensures { IsTrue result ↔ HasLink bytes.now order }
{
    field(order, bytes, 20) % 65_536 == 1
}
