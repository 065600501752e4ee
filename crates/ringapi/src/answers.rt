//! The answers of whole calls.
ghost use Rattle.std.specs.Prelude.{◌≡◌};
ghost use Rattle.ringapi.specs.Faults.{number_of};

use burst::Tagged;
use fabric::{Hand, PutOpen, SettleFault, StartFault, Stored, TakeOpenLent};
use thiserror::Error;

/// How many items moved, and how many more positions were free, or items queued, when the span was reserved.
#[derive(Drop, Clone, Copy, Debug, PartialEq, Eq)]
pub struct Moved {
    pub count: usize,
    pub left: u64,
}

/// Why a whole call moves nothing.
#[derive(Drop, Clone, Copy, Debug, PartialEq, Eq, Error)]
pub enum Refusal {
    /// Its start was refused: why, with the word or the room that it found.
    #[error("{0}")]
    Start(StartFault),
    /// An item of a put carries a buffer that isn't the hand's own, or that another item carries too, or the ring is a
    /// free ring and the item doesn't carry exactly one. Tested before any step.
    #[error("NotYours")]
    NotYours,
}

impl Refusal {
    /// The number of its start's refusal, 1 to 5, or 7 for `NotYours`, as for a settle.
    pub fn number(self) -> u8
        ensures { result ≡ number_of self }
    {
        match self {
            Refusal::Start(fault) => fault.number(),
            Refusal::NotYours => SettleFault::NotYours.number(),
        }
    }
}

/// The answer of a whole put. What it didn't move is still in the burst, in order. A slice isn't changed: all its words
/// but the first `count` weren't moved.
#[derive(Drop)]
pub enum PutAnswer<'f, T: Tagged, const N: usize, S: Stored<T> = Option<T>> {
    /// The first items were put, as many as `Moved` says.
    Done(Hand<T, S>, Moved),
    /// Nothing was moved.
    Refused(Hand<T, S>, Refusal),
    /// A span is reserved, and an earlier one isn't settled yet: the tail found. The first items of the burst or the
    /// slice, as many as it has positions, are still to be settled there: by `PutOpen::try_settle_first_from`, or of a
    /// slice by `PutOpen::try_settle_from`.
    Open(PutOpen<'f, T, N, S>, u64),
}

/// The answer of a whole take.
#[derive(Drop)]
pub enum TakeAnswer<'f, T: Tagged, const N: usize, S: Stored<T> = Option<T>> {
    /// Items were taken, as many as `Moved` says: they are in the burst, or at the front of the slice.
    Done(Hand<T, S>, Moved),
    /// Nothing was moved; the burst is empty, or the slice unchanged.
    Refused(Hand<T, S>, StartFault),
    /// A span is reserved, and an earlier one isn't settled yet: the tail found. The burst, or the front of the slice,
    /// shows its items. It is settled by `TakeOpenLent::try_settle_into`, or of a slice by
    /// `TakeOpenLent::try_settle_into` with as many words from its front as the span has positions.
    Open(TakeOpenLent<'f, T, N, S>, u64),
}
