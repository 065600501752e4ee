//! A value that several threads share, each for a moment, and of which a fact about a fixed key is always true. No call
//! waits.
mod lock;
mod rule;

pub use lock::{KeyedLock, Taken, Ticket};
pub use rule::Keeps;
