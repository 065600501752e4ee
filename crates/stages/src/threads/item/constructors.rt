//! Constructors of what is on the rings.
ghost use Rattle.std.specs.Prelude.{◌≡◌, ◌≤◌, length};
ghost use Rattle.mbuf.specs.Chain.{bytes_of};
ghost use Rattle.pcapio.specs.Record.{packet_in};
ghost use Rattle.stages.specs.Judging.{IsBefore, IsFree};
ghost use Rattle.run_one.specs.Packets.{IsRecord};

use crate::threads::item::{FreeSegment, RingItem};
use mbuf::Chain;
use run_one::Unjudged;
use stages_laws::Run;
use std::marker::PhantomData;

impl<J: Run> RingItem<J> {
    /// A segment that isn't in use by a packet. Requires: the chain has one segment.
    pub fn free(chain: Chain) -> RingItem<J>
        requires one { length chain ≡ 1 }
        ensures { IsFree result chain }
    {
        RingItem::Free(FreeSegment {
            chain,
            of: PhantomData,
        })
    }

    /// A packet before its verdict. Requires: it is the record with this number, from 0, among the records of the run's
    /// input that aren't oversize, and its length on the wire is at least its captured length.
    pub fn before(seq: u64, seconds: u32, fraction: u32, wire: u32, chain: Chain) -> RingItem<J>
        requires record { IsRecord J.input J.room seq (packet_in seconds fraction wire chain) }
        requires captured { length (bytes_of chain) ≤ wire }
        ensures { IsBefore result seq seconds fraction wire chain }
    {
        RingItem::Before(Unjudged {
            seq,
            seconds,
            fraction,
            wire,
            chain,
            of: PhantomData,
        })
    }

    /// The end mark.
    pub fn mark() -> RingItem<J>
        ensures { result ≡ RingItem.Mark }
    {
        RingItem::Mark
    }
}
