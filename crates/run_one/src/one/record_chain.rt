//! The chains into which a run by one thread reads its records, one after another.
ghost use Rattle.std.specs.Prelude.{◌≡◌, ◌≤◌, ◌<◌, ◌*◌, min, IfOk};
ghost use Rattle.mbuf.specs.Chain.{space_of};
ghost use Rattle.run_one.specs.Turns.{long_of};

use crate::records::MAX_SEGMENTS;
use mbuf::{Chain, make};
use pcapio::MAX_CAPTURED;
use std::alloc::{AllocError, Global};

/// The maximum room of a segment, in bytes.
const MAX_ROOM: usize = 65_536;

/// The greatest room at which the longest record that isn't oversize fits into one segment.
const ONE_SEGMENT: usize = MAX_ROOM / MAX_SEGMENTS;

/// A chain of one segment, for most records, and one with space for the longest record that isn't oversize: a call on a
/// chain visits all its segments.
#[derive(Drop)]
pub(crate) struct RecordChains {
    short: Chain,
    pub(crate) long: Chain,
}

impl RecordChains {
    /// Chains for records of at most 64 times `room` bytes, each segment with this headroom.
    pub(crate) fn new(
        alloc: Global,
        headroom: usize,
        room: usize,
    ) -> Result<RecordChains, AllocError>
        requires nonzero { 0 < room }
        requires headroom { headroom ≤ 65536 }
        requires room { room ≤ 65536 }
        ensures { IfOk result (λ chains. min (64 * room) 262144 ≤ space_of chains.long) }
    {
        let short = longest_chain(alloc, headroom, room.min(ONE_SEGMENT))?;
        let long = longest_chain(alloc, headroom, room)?;
        Ok(RecordChains { short, long })
    }

    /// The chain for a record of `captured` bytes, the other one, and whether the first is the long one. Requires: the
    /// long one has space for them.
    pub(crate) fn choose(self, captured: usize) -> (Chain, Chain, bool)
        requires { captured ≤ space_of self.long }
        ensures space { captured ≤ space_of result.0 }
        ensures long { long_of result.2 result.0 result.1 ≡ self.long }
    {
        let RecordChains { short, long } = self;
        if captured <= short.space() {
            (short, long, false)
        } else {
            (long, short, true)
        }
    }

    /// Both chains, after `choose`.
    pub(crate) fn rejoin(chain: Chain, other: Chain, is_long: bool) -> RecordChains
        ensures { result.long ≡ long_of is_long chain other }
    {
        if is_long {
            RecordChains {
                short: other,
                long: chain,
            }
        } else {
            RecordChains {
                short: chain,
                long: other,
            }
        }
    }
}

/// A chain with space for the longest record that isn't oversize. The length of its segments makes no visible
/// difference, so they are as long as possible: a call on a chain visits its segments.
fn longest_chain(alloc: Global, headroom: usize, room: usize) -> Result<Chain, AllocError>
    requires nonzero { 0 < room }
    requires headroom { headroom ≤ 65536 }
    requires room { room ≤ 65536 }
    ensures { IfOk result (λ chain. min (64 * room) 262144 ≤ space_of chain) }
{
    let longest = (MAX_SEGMENTS * room).min(MAX_CAPTURED as usize);
    let size = longest.min(MAX_ROOM);
    let count = segments_for(longest);
    let mut list = make(alloc, count, headroom, size)?;
    let Some(mut whole) = list.pop() else {
        unreachable!();
    };
    while let Some(before) = list.pop() {
        match before.chain(whole) {
            Ok(joined) => whole = joined,
            Err(_) => unreachable!(),
        }
    }
    Ok(whole)
}

/// How many segments of the maximum length have room for this many bytes.
fn segments_for(longest: usize) -> u32
    requires { longest ≤ 262144 }
    ensures nonzero { 0 < result }
    ensures at_most { result ≤ 4 }
    ensures enough { longest ≤ result * min longest 65536 }
{
    if longest > MAX_ROOM { 4 } else { 1 }
}
