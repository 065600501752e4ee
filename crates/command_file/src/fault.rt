//! Why a command file was not answered to its end.

use thiserror::Error;

/// Why the text of a command file was not answered to its end.
#[derive(Clone, Copy, Debug, PartialEq, Eq, Error)]
pub enum TextFault {
    /// The line with this number, from 1 on, has no valid form or is not allowed at its place.
    #[error("line {0}")]
    BadLine(u64),
    /// The allocator refused a request.
    #[error("memory")]
    Memory,
    /// The plan at the start of a steps file isn't valid as a whole.
    #[error("plan")]
    BadPlan,
}
