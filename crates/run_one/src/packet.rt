//! Packets on their way through a run. The type of each carries the fact that it belongs to the record with its number.
ghost use Rattle.std.specs.Prelude.{◌≡◌, ◌≤◌, length};
ghost use Rattle.mbuf.specs.Chain.{bytes_of};
ghost use Rattle.pcapio.specs.Record.{packet_in};
ghost use Rattle.run_one.specs.Packets.{IsRecord, IsFate, HasPort};
ghost use Rattle.run_one.specs.Tallies.{fates_of};

mod verdict;

use ipv4::Verdict;
use mbuf::Chain;
use stages_laws::Run;
use std::marker::PhantomData;

/// A packet before its verdict.
#[derive(Drop)]
pub struct Unjudged<J: Run> {
    /// The number of its record, among the numbered records.
    pub seq: u64,
    /// The time at which it was captured, in seconds.
    pub seconds: u32,
    /// The rest of that time, in micro- or nanoseconds.
    pub fraction: u32,
    /// Its length on the wire, in bytes.
    pub wire: u32,
    /// Its bytes.
    pub chain: Chain,
    /// The run that it belongs to.
    pub of: PhantomData<J>,
    pub ghost is: { IsRecord J.input J.room seq (packet_in seconds fraction wire chain) },
    pub ghost captured: { length (bytes_of chain) ≤ wire },
}

/// A packet after its verdict.
#[derive(Drop)]
pub struct Judged<J: Run> {
    /// The number of its record, among the numbered records.
    pub seq: u64,
    /// The time at which it was captured, in seconds.
    pub seconds: u32,
    /// The rest of that time, in micro- or nanoseconds.
    pub fraction: u32,
    /// Its length on the wire, in bytes.
    pub wire: u32,
    /// The verdict.
    pub verdict: Verdict,
    /// Its bytes.
    pub chain: Chain,
    /// The run that it belongs to.
    pub of: PhantomData<J>,
    pub ghost is: { IsFate (fates_of J.forwarding J.room J.input) seq verdict (packet_in seconds fraction wire chain) },
    pub ghost port: { HasPort (length J.before) verdict },
}
