//! Why a call on a chain or on a deck of shares is refused.
ghost use Rattle.std.specs.Prelude.{◌≡◌};
ghost use Rattle.mbuf.specs.Fault.{number_of, deck_number_of};

use thiserror::Error;

/// Why a call on a chain is refused.
#[derive(Clone, Copy, Debug, PartialEq, Eq, Error)]
pub enum ChainFault {
    /// The first segment has less headroom than the bytes need.
    #[error("NoHeadroom")]
    NoHeadroom = 1,
    /// The last segment has less tailroom than the bytes need, or the chain too little space.
    #[error("NoTailroom")]
    NoTailroom = 2,
    /// The segment, or the packet, has too few bytes from there on; or the destination of a copy is too short.
    #[error("TooShort")]
    TooShort = 3,
    /// The two chains have more than 64 segments together.
    #[error("TooManySegments")]
    TooManySegments = 4,
}

impl ChainFault {
    /// 1 NoHeadroom, 2 NoTailroom, 3 TooShort, 4 TooManySegments.
    pub fn number(self) -> u8
        ensures { result ≡ number_of self }
    {
        self as u8
    }
}

/// Why a call on a deck of shares is refused.
#[derive(Clone, Copy, Debug, PartialEq, Eq, Error)]
pub enum DeckFault {
    /// The chain has less space than the share has bytes.
    #[error("NoTailroom")]
    NoTailroom = 2,
    /// The share shows too few bytes from there on.
    #[error("TooShort")]
    TooShort = 3,
    /// No live share has this id.
    #[error("NoSuchShare")]
    NoSuchShare = 5,
    /// There was no memory for one more share.
    #[error("Memory")]
    Memory = 6,
    /// All of the 2^32 - 1 ids have been used.
    #[error("NoId")]
    NoId = 7,
}

impl DeckFault {
    /// 2 NoTailroom, 3 TooShort, 5 NoSuchShare, 6 Memory, 7 NoId.
    pub fn number(self) -> u8
        ensures { result ≡ deck_number_of self }
    {
        self as u8
    }
}
