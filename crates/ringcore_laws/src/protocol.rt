//! The steps of the protocol and their replies. Each step is at most one load, one store or one compare-and-exchange on
//! one word.

use crate::contents::Items;
use geom::{How, Side};

/// An open span: `count` positions from `start` on, of one side of a ring, which one party has reserved and not yet
/// settled.
#[derive(Clone, Copy, Debug)]
pub struct Span {
    pub ring: usize,
    pub side: Side,
    /// The first position.
    pub start: u64,
    /// How many positions it has.
    pub count: u64,
}

/// What an actor has seen of a side since its last look there.
#[derive(Clone, Copy, Debug)]
pub struct Observed {
    pub ring: usize,
    pub side: Side,
    /// The side's own word, as the last look found it.
    pub looked_at: u64,
    /// The tail of the other side, if the actor has asked for room.
    pub tail_seen: Option<u64>,
}

/// One atomic step of an actor, or a local step, which touches no word.
#[derive(Drop, Debug)]
pub enum Step {
    /// Loads the own word of a side of a ring.
    Look(usize, Side),
    /// Loads the tail of the other side, after a look.
    Room(usize, Side),
    /// Reserves positions of a side, starting at the one looked at, by one exchange of the own word, after a look and a
    /// question for room.
    Reserve(usize, Side, How, u64),
    /// Settles the own open put span with these items: publishes them.
    SettlePut(usize, Items),
    /// Settles the given number of positions of the own open take span: dequeues their items.
    SettleTake(usize, u64),
    /// Marks a held buffer as cached. A local step.
    Stash(u64),
    /// Marks a cached buffer as held again. A local step.
    Unstash(u64),
}

/// The reply to a step. A refusal leaves rings, spans and buffers as they were.
#[derive(Drop, Debug)]
pub enum Reply {
    /// What a look, a question for room or a local step found.
    Seen(u64),
    /// A reservation: its first position, how many positions it has, and how much room is left.
    Granted(u64, u64, u64),
    /// How many positions were settled, and the items for a take.
    Done(u64, Items),
    /// A look at a head/tail-sync side that has an open span; carries the word found.
    Busy(u64),
    /// The exchange of a Reserve lost against another actor; carries the word found.
    Contended(u64),
    /// There is too little room, by what was seen; carries the room.
    NoRoom(u64),
    /// An earlier span of the side isn't settled yet; carries the tail found.
    NotYet(u64),
    /// The positions of the ring are used up.
    Worn,
    /// A step out of turn.
    NoSpan,
    /// A count of 0, more than was reserved, or for a free ring more than the actor's buffers.
    BadCount,
    /// A buffer that isn't the actor's to put.
    NotYours,
}

/// Where a buffer is.
#[derive(Clone, Copy, Debug, PartialEq, Eq)]
pub enum Place {
    /// In the item queued on this ring at this position, even while an open take span holds it.
    AtRing(usize, u64),
    /// With this actor, and not marked as cached.
    Held(usize),
    /// With this actor, and marked as cached.
    Cached(usize),
    /// Not a buffer of the pool.
    Nowhere,
}
