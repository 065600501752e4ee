//! Why a call of the writer is refused.

use lpm::RouteFault;
use thiserror::Error;

/// The errors of the writer's calls, with their numbers.
#[derive(Clone, Copy, Debug, PartialEq, Eq, Error)]
pub enum LiveFault {
    /// The depth is not from 1 to 32.
    #[error("BadDepth")]
    BadDepth = 1,
    /// A route's next hop is 2^24 or more, or there is no next hop of the number.
    #[error("BadHop")]
    BadHop = 2,
    /// The routes would need more groups than the table may have.
    #[error("NoGroup")]
    NoGroup = 3,
    /// There was no memory.
    #[error("Memory")]
    Memory = 4,
    /// There is no such route.
    #[error("NoRoute")]
    NoRoute = 5,
    /// There is no port of the number.
    #[error("BadPort")]
    BadPort = 6,
    /// A reader is still in a call that began before the last publish, or the second copy still lacks memory for a
    /// change: try again.
    #[error("Pending")]
    Pending = 7,
}

impl LiveFault {
    ghost use Rattle.std.specs.Prelude.{◌≡◌};
    ghost use Rattle.live_routes.specs.Faults.{fault_of};

    /// The same fault of the route table.
    pub fn of(fault: RouteFault) -> LiveFault
        ensures { result ≡ fault_of fault }
    {
        match fault {
            RouteFault::BadDepth => LiveFault::BadDepth,
            RouteFault::BadHop => LiveFault::BadHop,
            RouteFault::NoGroup => LiveFault::NoGroup,
            RouteFault::Memory => LiveFault::Memory,
            RouteFault::NoRoute => LiveFault::NoRoute,
        }
    }
}
