//! How far the reader of a run has got in its input.
ghost use Rattle.std.specs.Prelude.{◌≡◌, ◌≤◌, ◌<◌, ◌+◌, ◌^◌, [], length};
ghost use Rattle.counters.specs.Counted.{counts_of};
ghost use Rattle.counters.specs.Tally.{records_of};
ghost use Rattle.run_one.specs.SoFar.{IsAll};

use crate::records::input_totals::InputTotals;
use counters::Counts;
use stages_laws::Run;
use std::marker::PhantomData;

/// How many records have been numbered so far, and the counts of the oversize ones.
#[derive(Drop)]
pub struct ReadState {
    pub count: u64,
    pub oversize: Counts,
}

impl ReadState {
    /// Before the first record of an input, with this many ports.
    pub fn new(ports: usize) -> ReadState
        requires nonzero { 0 < ports }
        requires at_most { ports ≤ 16 }
        ensures count { result.count ≡ 0 }
        ensures oversize { result.oversize ≡ counts_of ports 0 [] }
    {
        ReadState {
            count: 0,
            oversize: Counts::new(ports),
        }
    }

    /// What is reported at the end of the input.
    pub fn into_totals<J: Run>(self, torn: bool) -> InputTotals<J>
        requires all { IsAll J.input J.room (length J.before) self torn }
        requires bounded { self.count + records_of self.oversize < 2 ^ 64 }
        ensures { result.count ≡ self.count }
    {
        let ReadState { count, oversize } = self;
        InputTotals {
            count,
            oversize,
            torn,
            of: PhantomData,
        }
    }
}
