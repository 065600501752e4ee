//! How a thread of a run waits for the others.
use crossbeam_utils::Backoff;
use std::cell::Cell;
use std::thread;
use std::time::{Clock, Duration};

/// The longest sleep that a thread asks for, in microseconds. The first one of a wait is a microsecond, and each is a
/// microsecond longer than the one before. The system adds what it takes to wake a thread, some 50 on Linux. So a
/// thread that waits for long wakes rarely, and no later than a small part of what it has waited.
const LONGEST: u64 = 10_000;

/// How many pauses are spins, each twice as long as the one before.
const SPINS: u32 = 7;

/// How many pauses the sink makes before it sleeps. On Linux they take some milliseconds.
const YIELDS: u32 = 8192;

/// How many sleeps a long wait has: together they take about a millisecond.
const MANY: u64 = 16;

/// The pauses of a thread that waits for others. After some of them it sleeps for a moment each time, so that a
/// processor is left to those that have work.
#[derive(Drop)]
pub struct Idle {
    backoff: Backoff,
    /// How many pauses there were without a sleep.
    awake: Cell<u32>,
    /// How long the last sleep was, in microseconds.
    slept: Cell<u64>,
}

impl Idle {
    /// Before the first pause.
    #[inline]
    pub fn new() -> Idle {
        Idle {
            backoff: Backoff::new(),
            awake: Cell::new(0),
            slept: Cell::new(0),
        }
    }

    /// A pause: spins that grow, then a sleep each time. It doesn't yield: a thread that wakes from a sleep can be put
    /// on another processor.
    pub fn wait<R: Clock>(&self, rt: &R) {
        if self.is_among_first(SPINS) {
            self.backoff.spin();
        } else {
            self.sleep(rt);
        }
    }

    /// A pause of the thread that the others wait for: spins that grow, then yields, and a sleep each time only after a
    /// long wait, as for an input that is slow.
    pub fn wait_awake<R: Clock>(&self, rt: &R) {
        if self.is_among_first(YIELDS) {
            self.backoff.snooze();
        } else {
            self.sleep(rt);
        }
    }

    /// Counts a pause, and returns whether it is among the first `count`.
    fn is_among_first(&self, count: u32) -> bool {
        let awake = self.awake.get();
        if awake < count {
            self.awake.set(awake + 1);
            true
        } else {
            false
        }
    }

    /// Sleeps a little longer than the last time.
    fn sleep<R: Clock>(&self, rt: &R) {
        let time = self.slept.get().saturating_add(1).min(LONGEST);
        self.slept.set(time);
        thread::sleep(rt, Duration::from_micros(time));
    }

    /// Whether this wait has had many sleeps. What the others need is then not on its way.
    pub fn is_long(&self) -> bool {
        self.slept.get() >= MANY
    }

    /// The next pause is the first one again.
    pub fn reset(&self) {
        self.backoff.reset();
        self.awake.set(0);
        self.slept.set(0);
    }
}
