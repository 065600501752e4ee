//! Brings the second copy up to the one that readers have.

ghost use Rattle.std.specs.Prelude.{◌≡◌, [], IsTrue, fold};
ghost use Rattle.live_routes.specs.Changes.{applied};

use crate::change::Change;
use crate::fib::Fib;
use std::collections::VecDeque;

/// Makes the changes of the list, first to last, and takes each off. Returns whether all were made: otherwise the first
/// that is left was refused memory, and may be tried again.
pub fn catch_up<H: Copy, P: Copy>(fib: &mut Fib<H, P>, log: &mut VecDeque<Change<H, P>>) -> bool
    ensures same { fold applied fib.new log.new.items ≡ fold applied fib.old log.old.items }
    ensures all { IsTrue result → log.new.items ≡ [] }
{
    while let Some(change) = log.pop_front() {
        if fib.apply(change).is_err() {
            log.push_front_reserved(change);
            return false;
        }
    }
    true
}
