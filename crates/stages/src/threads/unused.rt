//! The segments that no packet has used yet.
ghost use Rattle.std.specs.Prelude.{◌≡◌, ◌+◌, ◌*◌, ◌<◌, ◌≤◌, ◌-◌, ◌++◌, option_to_list, vec_len, IsSome, None, true, false};

use crate::threads::item::RingItem;
use stages_laws::Run;

/// How many packets may wait while a thread wakes from a sleep of some 60 µs, and while it works off those that came
/// meanwhile. With 128 the threads slept almost twice as often.
const ASLEEP: usize = 512;

/// How many packets on their way are enough to keep all threads busy: a burst for the reader, the sink and each
/// worker, and those that wait while a thread wakes.
fn enough(workers: usize, burst: usize) -> usize
    requires workers { workers ≤ 16 }
    requires burst { burst ≤ 64 }
    ensures { result ≡ 512 + (workers + 2) * burst }
{
    ASLEEP + (workers + 2) * burst
}

/// Segments that no packet has used yet. The reader takes one only if those in use are too few. So a run uses as few
/// segments as do its work, and these stay in the processors' caches.
#[derive(Drop)]
pub(crate) struct Unused<J: Run> {
    /// The segments; the last one is taken first.
    pub(crate) rest: Vec<RingItem<J>>,
    /// How many segments the run has.
    pub(crate) all: usize,
    /// How many packets on their way are enough.
    pub(crate) enough: usize,
    pub ghost small: { enough ≤ 1664 },
}

impl<J: Run> Unused<J> {
    /// All segments of a run, before the first record.
    pub(crate) fn new(segments: Vec<RingItem<J>>, workers: usize, burst: usize) -> Unused<J>
        requires workers { workers ≤ 16 }
        requires burst { burst ≤ 64 }
        ensures rest { result.rest ≡ segments }
        ensures all { result.all ≡ vec_len segments }
        ensures enough { result.enough ≡ 512 + (workers + 2) * burst }
    {
        let all = segments.len();
        Unused {
            rest: segments,
            all,
            enough: enough(workers, burst),
        }
    }

    /// Takes a segment, if there is one. Unless the reader is `short` of them, it takes none if those in use are enough
    /// for packets of `each` segments.
    pub(crate) fn take(&mut self, each: usize, short: bool) -> Option<RingItem<J>>
        requires each { each ≤ 64 }
        ensures rest { self.old.rest.items ≡ self.new.rest.items ++ option_to_list result }
        ensures few { short ≡ false → self.old.enough * each ≤ self.old.all - vec_len self.old.rest → result ≡ None }
        ensures more { self.old.all - vec_len self.old.rest < self.old.enough * each → 0 < vec_len self.old.rest
            → IsSome result }
        ensures given { short ≡ true → 0 < vec_len self.old.rest → IsSome result }
        ensures kept { (self.new.all ≡ self.old.all) × (self.new.enough ≡ self.old.enough) }
    {
        let used = self.all.saturating_sub(self.rest.len());
        if short {
            return self.rest.pop();
        }
        if self.enough * each <= used {
            return None;
        }
        self.rest.pop()
    }
}
