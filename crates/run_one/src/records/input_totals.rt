//! What a reader reports at its end.
ghost use Rattle.std.specs.Prelude.{◌≡◌, ◌+◌, ◌<◌, ◌^◌, length};
ghost use Rattle.counters.specs.Tally.{records_of};
ghost use Rattle.run_one.specs.InputTotals.{IsCount, AreOversize, HasEnd};

use counters::Counts;
use stages_laws::Run;
use std::marker::PhantomData;

/// How many records were numbered, how many were oversize, and whether the input ended inside one: all of the input.
#[derive(Drop)]
pub struct InputTotals<J: Run> {
    pub count: u64,
    /// The counts of the oversize records.
    pub oversize: Counts,
    pub torn: bool,
    pub of: PhantomData<J>,
    pub ghost all: { IsCount J.input J.room count },
    pub ghost over: { AreOversize J.input J.room (length J.before) oversize },
    pub ghost end: { HasEnd J.input torn },
    pub ghost ports: { length oversize.sent ≡ length J.before },
    pub ghost bounded: { count + records_of oversize < 2 ^ 64 },
}
