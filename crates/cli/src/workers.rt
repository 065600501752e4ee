//! How many workers a run has: a number, or as many as suit the processors.

ghost use Rattle.std.specs.Prelude.{◌≤◌};
ghost use Rattle.cli.specs.Chosen.{IsChosen, given};

use std::thread::{Threads, available_parallelism};

/// How many threads a run with workers has beside them: the reader and the sink.
const OTHERS: usize = 2;

/// The most workers that are chosen: no run was measured to be faster with more.
const MAX_CHOSEN: usize = 2;

/// What the command line requests.
#[derive(Clone, Copy, Debug, PartialEq, Eq)]
pub enum Workers {
    /// As many as suit the processors that the process may use, 0 to 2: `workers_for`.
    Auto,
    /// This many, 0 to 16.
    Count(usize),
}

impl Workers {
    /// The number of workers of a run in these threads. If it isn't known how many processors there are, there is one.
    pub(crate) fn count<T: Threads>(self, threads: &T) -> usize
        requires at_most { given self ≤ 16 }
        ensures at_most { result ≤ 16 }
    {
        match self {
            Workers::Count(count) => count,
            Workers::Auto => match available_parallelism(threads) {
                Ok(processors) => workers_for(processors.get()),
                Err(_) => workers_for(1),
            },
        }
    }
}

/// How many workers suit a run with so many processors, 0 to 2: the most for which each thread of the run has one. With
/// N workers there are N + 2 threads, with 0 there is one. So it is 0 up to two processors, 1 with three, 2 with more.
pub fn workers_for(processors: usize) -> usize
    ensures chosen { IsChosen processors result }
{
    processors.saturating_sub(OTHERS).min(MAX_CHOSEN)
}
