//! How long a call that tries again waits before each try.
use crossbeam_utils::Backoff;
use std::hint;
use std::sync::Wait;

/// How many tries come one pause after the other, before the waits become longer. What a call meets is mostly another
/// call that is at work on the same side, and that one moves its items in the time of a few pauses.
const SHORT: u32 = 16;

/// The waits between the tries of one call: first one pause of the processor each, then a backoff, which gives the
/// processor to other threads in the end.
#[derive(Drop)]
pub(crate) struct Pauses {
    short: u32,
    backoff: Backoff,
}

impl Pauses {
    /// Before the first try.
    #[inline]
    pub(crate) fn new() -> Pauses {
        Pauses {
            short: SHORT,
            backoff: Backoff::new(),
        }
    }

    /// Waits before the next try. Only a caller that may wait has the handle.
    #[inline]
    pub(crate) fn wait<R: Wait>(&mut self, _rt: &R) {
        if self.short > 0 {
            self.short -= 1;
            hint::spin_loop();
        } else {
            self.backoff.snooze();
        }
    }
}
