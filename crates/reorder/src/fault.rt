//! Why a window refuses an item.
ghost use Rattle.std.specs.Prelude.{◌≡◌};
ghost use Rattle.reorder.specs.Fault.{number_of};

use thiserror::Error;

/// The errors of `Window::insert`, with their numbers. No two of them can apply at once.
#[derive(Clone, Copy, Debug, PartialEq, Eq, Error)]
pub enum InsertFault {
    /// The number is below the next one: its turn has passed.
    #[error("Late")]
    Late = 1,
    /// The number is at least a whole window above the next one, or it is 2^64 - 1, which is always early.
    #[error("Early")]
    Early = 2,
    /// An item with this number is already waiting.
    #[error("Double")]
    Double = 3,
}

impl InsertFault {
    /// 1 Late, 2 Early, 3 Double.
    pub fn number(self) -> u8
        ensures { result ≡ number_of self }
    {
        self as u8
    }
}
