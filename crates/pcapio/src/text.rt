//! The headers of a file and of a record, as they are written.
ghost use Rattle.std.specs.Prelude.{◌≡◌};
ghost use Rattle.byteorder.specs.Endian.{little_bytes};
ghost use Rattle.pcapio_laws.specs.Text.{file_header, record_header};
ghost use Rattle.pcapio.specs.Record.{packet_in, packet_with, header_with};

use byteorder::{ByteOrder as Endian, LittleEndian};
use mbuf::Chain;
use pcapio_laws::{MAX_CAPTURED, Resolution};

/// The bytes of a file's header: version 2.4, the maximum captured length, and Ethernet.
pub(crate) fn header_bytes(resolution: Resolution) -> [u8; 24]
    ensures { result ≡ file_header resolution }
{
    let magic = match resolution {
        Resolution::Micro => 0xa1b2_c3d4,
        Resolution::Nano => 0xa1b2_3c4d,
    };
    let mut bytes = [0; 24];
    LittleEndian::write_u32(&mut bytes, magic);
    LittleEndian::write_u16(&mut bytes[4..], 2);
    LittleEndian::write_u16(&mut bytes[6..], 4);
    LittleEndian::write_u32(&mut bytes[16..], MAX_CAPTURED);
    LittleEndian::write_u32(&mut bytes[20..], 1);
    bytes
}

/// The header of the record of a packet in a chain.
pub(crate) fn header_of(seconds: u32, fraction: u32, wire: u32, chain: &Chain) -> [u8; 16]
    ensures { result ≡ record_header (packet_in seconds fraction wire chain.now) }
{
    header_with(seconds, fraction, wire, chain.len())
}

/// The header of the record of a packet with these bytes.
#[inline]
pub(crate) fn header_of_frame(seconds: u32, fraction: u32, wire: u32, frame: &[u8]) -> [u8; 16]
    ensures { result ≡ record_header (packet_with seconds fraction wire frame.now) }
{
    header_with(seconds, fraction, wire, frame.len())
}

/// The header of a record with so many captured bytes.
#[inline]
fn header_with(seconds: u32, fraction: u32, wire: u32, captured: usize) -> [u8; 16]
    ensures { result ≡ header_with seconds fraction wire captured }
{
    let mut bytes = [0; 16];
    LittleEndian::write_u32(&mut bytes, seconds);
    LittleEndian::write_u32(&mut bytes[4..], fraction);
    LittleEndian::write_u32(&mut bytes[8..], low_bits(captured));
    LittleEndian::write_u32(&mut bytes[12..], wire);
    bytes
}

/// The low 32 bits.
fn low_bits(n: usize) -> u32
    ensures { little_bytes 4 result ≡ little_bytes 4 n }
{
    (n % 4_294_967_296) as u32
}
