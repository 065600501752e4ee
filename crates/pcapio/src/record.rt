//! A record, and the fields of its header.
ghost use Rattle.std.specs.Prelude.{◌≤◌, length, IfSome, IfNone};
ghost use Rattle.pcapio_laws.specs.Capture.{IsBad};

use crate::header::field;
use pcapio_laws::{ByteOrder, MAX_CAPTURED};

/// The fields before the bytes of a record.
#[derive(Clone, Copy, Debug, PartialEq, Eq)]
pub struct Head {
    pub seconds: u32,
    /// Microseconds or nanoseconds, by the file's resolution. It may be any number.
    pub fraction: u32,
    /// The captured length, at most `MAX_CAPTURED`.
    pub captured: u32,
    /// The length of the packet on the wire, not below the captured length.
    pub wire: u32,
}

/// A packet with its bytes.
#[derive(Debug, Drop)]
pub struct Record {
    pub seconds: u32,
    /// Microseconds or nanoseconds, by the file's resolution. It may be any number.
    pub fraction: u32,
    /// The length of the packet on the wire, not below the captured length.
    pub wire: u32,
    pub bytes: Vec<u8>,
}

ghost use Rattle.pcapio.specs.Record.{IsHead};

/// The length of a record's header, in bytes (pcap-savefile(5)).
pub const HEAD: usize = 16;

/// The head of the record whose header is at the start of the bytes; `None` if its captured length is above
/// `MAX_CAPTURED`. Requires: there are at least `HEAD` bytes.
#[inline]
pub fn head_in(order: ByteOrder, bytes: &[u8]) -> Option<Head>
    requires { 16 ≤ length bytes.now }
    ensures head { IfSome result (IsHead order bytes.now) }
    ensures none { IfNone result (IsBad order bytes.now) }
{
    let captured = field(order, bytes, 8);
    if captured > MAX_CAPTURED {
        return None;
    }
    Some(Head {
        seconds: field(order, bytes, 0),
        fraction: field(order, bytes, 4),
        captured,
        wire: field(order, bytes, 12).max(captured),
    })
}
