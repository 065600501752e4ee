//! Why a route is refused.

ghost use Rattle.std.specs.Prelude.{◌≡◌};
ghost use Rattle.lpm.specs.Fault.{number_of};

use thiserror::Error;

/// The errors of `Table::add` and `Table::remove`, with their numbers.
#[derive(Clone, Copy, Debug, PartialEq, Eq, Error)]
pub enum RouteFault {
    /// The depth is not from 1 to 32.
    #[error("BadDepth")]
    BadDepth = 1,
    /// The next hop is 2^24 or more.
    #[error("BadHop")]
    BadHop = 2,
    /// The routes would need more groups than the table may have.
    #[error("NoGroup")]
    NoGroup = 3,
    /// There was no memory for the route or its group.
    #[error("Memory")]
    Memory = 4,
    /// The table has no such route.
    #[error("NoRoute")]
    NoRoute = 5,
}

impl RouteFault {
    /// 1 `BadDepth`, 2 `BadHop`, 3 `NoGroup`, 4 `Memory`, 5 `NoRoute`.
    pub fn number(self) -> u8
        ensures { result ≡ number_of self }
    {
        self as u8
    }
}
