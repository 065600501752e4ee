//! Why a document isn't valid settings.

ghost use Rattle.std.specs.Prelude.{◌≡◌};
ghost use Rattle.settings.specs.Faults.{number_of};
ghost use Rattle.settings.specs.declared.fault.SettingsFault.TheVariants.{Memory};

use crate::key::Key;
use std::alloc::{AllocError, AllocFailed};
use thiserror::Error;

/// The first fault of a document, in the order in which it is tested.
#[derive(Clone, Copy, Debug, PartialEq, Eq, Error)]
pub enum SettingsFault {
    /// The text is not UTF-8, or not a TOML document, or begins with a byte order mark.
    #[error("NotToml")]
    NotToml,
    /// A required key is missing.
    #[error("Missing {0}")]
    Missing(Key),
    /// The value of a key has the wrong type or is out of its range.
    #[error("BadValue {0}")]
    BadValue(Key),
    /// The route with this number, from 0 on, has a missing or invalid key, or needs more groups than there may be.
    #[error("BadRoute {0}")]
    BadRoute(u32),
    /// There are fewer buffers than a burst of 64 and a full cache.
    #[error("TooFewBuffers")]
    TooFewBuffers,
    /// Out of memory. This is no fault of the document.
    #[error("Memory")]
    Memory,
}

impl SettingsFault {
    /// 1 `NotToml`, 2 `Missing`, 3 `BadValue`, 4 `BadRoute`, 5 `TooFewBuffers`, 6 `Memory`.
    pub fn number(self) -> u8
        ensures { result ≡ number_of self }
    {
        match self {
            SettingsFault::NotToml => 1,
            SettingsFault::Missing(_) => 2,
            SettingsFault::BadValue(_) => 3,
            SettingsFault::BadRoute(_) => 4,
            SettingsFault::TooFewBuffers => 5,
            SettingsFault::Memory => 6,
        }
    }
}

impl From<AllocError> for SettingsFault {
    ghost from_gives = { λ _ fault. fault ≡ Memory };

    fn from(_error: AllocError) -> SettingsFault {
        SettingsFault::Memory
    }
}

impl<T: Drop> From<AllocFailed<T>> for SettingsFault {
    ghost from_gives = { λ _ fault. fault ≡ Memory };

    fn from(_error: AllocFailed<T>) -> SettingsFault {
        SettingsFault::Memory
    }
}
