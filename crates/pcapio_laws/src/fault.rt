//! Why a capture is refused, or a run over one ends.
ghost use Rattle.std.specs.Prelude.{◌≡◌};
ghost use Rattle.pcapio_laws.specs.Fault.{number_of};

use thiserror::Error;

/// Why a capture is refused, or why reading or writing one failed.
#[derive(Clone, Copy, Debug, PartialEq, Eq, Error)]
pub enum CapFault {
    /// Fewer than 24 bytes, or none of the magics.
    #[error("NotPcap")]
    NotPcap = 1,
    /// A version other than 2.4.
    #[error("BadVersion")]
    BadVersion = 2,
    /// A link type other than Ethernet.
    #[error("BadLink")]
    BadLink = 3,
    /// A record header with a captured length above the maximum.
    #[error("BadRecord")]
    BadRecord = 4,
    /// A read of the device failed.
    #[error("Read")]
    Read = 5,
    /// A write to the device failed.
    #[error("Write")]
    Write = 6,
    /// Out of memory.
    #[error("Memory")]
    Memory = 7,
}

impl CapFault {
    /// 1 `NotPcap`, 2 `BadVersion`, 3 `BadLink`, 4 `BadRecord`, 5 `Read`, 6 `Write`, 7 `Memory`.
    pub fn number(self) -> u8
        ensures { result ≡ number_of self }
    {
        self as u8
    }
}
