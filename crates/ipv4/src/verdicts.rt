//! What becomes of a frame.
ghost use Rattle.std.specs.Prelude.{◌≡◌};
ghost use Rattle.ipv4.specs.Reasons.{number_of};

use thiserror::Error;

/// Why a frame is dropped, with the numbers by which drops are counted.
#[derive(Clone, Copy, Debug, PartialEq, Eq, Error)]
pub enum Reason {
    /// The captured bytes end before the type or before the end of the header.
    #[error("short")]
    Short = 1,
    /// The type isn't IPv4 (RFC 894).
    #[error("not-ipv4")]
    NotIpv4 = 2,
    /// The version is not 4, or the header shorter than 20 bytes.
    #[error("bad-header")]
    BadHeader = 3,
    /// The total length is below the header's, or above the length on the wire.
    #[error("bad-length")]
    BadLength = 4,
    /// The one's complement sum of the header is not 0xFFFF.
    #[error("bad-checksum")]
    BadChecksum = 5,
    /// The time to live is 0 or 1.
    #[error("expired")]
    Expired = 6,
    /// No route covers the destination, or its hop leads to no port.
    #[error("no-route")]
    NoRoute = 7,
}

impl Reason {
    /// 1 `Short`, 2 `NotIpv4`, 3 `BadHeader`, 4 `BadLength`, 5 `BadChecksum`, 6 `Expired`, 7 `NoRoute`.
    pub fn number(self) -> u8
        ensures { result ≡ number_of self }
    {
        self as u8
    }
}

/// What becomes of a frame.
#[derive(Clone, Copy, Debug, PartialEq, Eq)]
pub enum Verdict {
    /// It leaves through this port; `tagged`: whether it has an 802.1Q tag, which it keeps.
    Send { port: u32, tagged: bool },
    /// It isn't forwarded.
    Drop(Reason),
}
