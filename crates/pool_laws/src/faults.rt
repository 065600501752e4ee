//! Why a call of a pool is refused.
ghost use Rattle.std.specs.Prelude.{◌≡◌};
ghost use Rattle.pool_laws.specs.Faults.{number_of};

use thiserror::Error;

/// Why a call of a pool is refused.
#[derive(Drop, Clone, Copy, Debug, PartialEq, Eq, Error)]
pub enum PoolFault {
    /// Fewer buffers are cached, or on the ring, than the call wants.
    #[error("Short")]
    Short = 1,
    /// The cache would pass its threshold.
    #[error("CacheFull")]
    CacheFull = 2,
    /// An item carries a buffer that isn't the hand's own, or that is cached, or that another item carries too, or the
    /// item doesn't carry exactly one.
    #[error("NotYours")]
    NotYours = 3,
    /// The positions of the free ring are used up.
    #[error("Worn")]
    Worn = 4,
    /// A size above 512, or a burst has too few places for the threshold and 64 more.
    #[error("BadSize")]
    BadSize = 5,
}

impl PoolFault {
    /// 1 `Short`, 2 `CacheFull`, 3 `NotYours`, 4 `Worn`, 5 `BadSize`.
    pub fn number(self) -> u8
        ensures { result ≡ number_of self }
    {
        self as u8
    }
}
