//! What is on the rings of a run: packets, free segments and end marks.
ghost use Rattle.std.specs.Prelude.{◌≡◌, length};

mod constructors;
mod tags;

use mbuf::Chain;
use run_one::{Judged, Unjudged};
use stages_laws::Run;
use std::marker::PhantomData;

/// A free segment: one that isn't in use by a packet.
#[derive(Drop)]
pub struct FreeSegment<J: Run> {
    /// The segment.
    pub chain: Chain,
    /// The run that it belongs to.
    pub of: PhantomData<J>,
    pub ghost one: { length chain ≡ 1 },
}

/// An item on the rings of a run.
#[derive(Drop)]
pub enum RingItem<J: Run> {
    /// A segment that isn't in use by a packet.
    Free(FreeSegment<J>),
    /// A packet before its verdict.
    Before(Unjudged<J>),
    /// A packet after its verdict.
    After(Judged<J>),
    /// An end mark: the last item that one worker takes, and the last it puts.
    Mark,
}
