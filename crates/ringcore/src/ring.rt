//! A ring of the machine: the numbers in its words, and its slots.

ghost use Rattle.ringcore_laws.specs.declared.protocol.Reply.TheVariants.{NoSpan};
ghost use Rattle.std.specs.Prelude.{◌≡◌, ◌≢◌, ◌+◌, ◌^◌, ◌<◌, Some};
ghost use Rattle.geom.specs.Extent.{Extent};
ghost use Rattle.geom.specs.Plan.{mode_of};
ghost use Rattle.ringcore_laws.specs.declared.contents.Item.{Item as AnItem};
ghost use Rattle.ringcore_laws.specs.RingSide.{RingSide};
ghost use Rattle.ringcore_laws.specs.HeadTailRule.{RuledSide};
ghost use Rattle.ringcore_laws.specs.History.{own_word, is_busy as is_busy_of, position_of as position_in, room_by_look, reserve_seen};
ghost use Rattle.ringcore.specs.Agree.{WordsAgree};
ghost use Rattle.ringcore.specs.Changes.{words_after};

use crate::one_ring::OneRing;
use geom::{Geometry, How, Mode, RingPlan, Side};
use ringcore_laws::{Item, Reply};

/// The words of a side: how far it is reserved, and how far it is settled.
#[derive(Clone, Copy, Debug)]
pub struct Words {
    pub head: u64,
    pub tail: u64,
}

impl Words {
    /// What the own word of the side shows.
    pub fn word(&self, geometry: Geometry, mode: Mode) -> u64
        ensures { (l : RingSide AnItem) → RuledSide geometry mode l → WordsAgree mode l self.now
            → result ≡ own_word geometry mode l }
    {
        match mode {
            Mode::Multi => self.head,
            // Positions and counts stay in the ring's range, so the word is exact in each world that a history leaves.
            // These numbers alone don't show that, and the difference may not wrap.
            Mode::Hts => geometry.word(self.tail, self.head.saturating_sub(self.tail)),
        }
    }

    /// Whether a span of an HTS side is open.
    pub fn is_busy(&self, mode: Mode) -> bool
        ensures { (e : Extent) (l : RingSide AnItem) → RuledSide e mode l → WordsAgree mode l self.now
            → result ≡ is_busy_of mode l }
    {
        match mode {
            Mode::Multi => false,
            Mode::Hts => self.tail < self.head,
        }
    }
}

/// A ring: the words of both sides, and the items from the take tail to the put tail, each in the slot of its position.
#[derive(Drop)]
pub struct Ring {
    pub put: Words,
    pub take: Words,
    pub queue: OneRing<Item>,
}

/// A ring of a world, with its plan.
#[derive(Drop)]
pub struct PlannedRing {
    pub plan: RingPlan,
    pub ring: Ring,
}

/// The position in a word that was seen with nothing reserved.
pub fn position_of(geometry: Geometry, mode: Mode, word: u64) -> u64
    ensures { result ≡ position_in geometry mode word }
{
    match mode {
        Mode::Multi => word,
        Mode::Hts => geometry.position_in(word),
    }
}

/// The room by the numbers that were seen.
pub fn room_of(side: Side, capacity: u64, position: u64, tail: u64) -> u64
    ensures { capacity + tail < 2 ^ 64 → result ≡ room_by_look side capacity position tail }
{
    // An old word may show a position above what the tail allows: then there is no room. The sum is exact for each tail
    // that was seen, which is at most the ring's last position.
    match side {
        Side::Put => capacity.saturating_add(tail).saturating_sub(position),
        Side::Take => tail.saturating_sub(position),
    }
}

/// Tries to reserve positions starting at the position in the word that was seen.
pub fn try_reserve(
    words: &mut Words,
    plan: &RingPlan,
    side: Side,
    how: How,
    count: u64,
    had: u64,
    word: u64,
    tail: u64,
) -> Reply
    ensures reply { (l : RingSide AnItem)
        → RuledSide plan.now.geometry (mode_of plan.now side) l → WordsAgree (mode_of plan.now side) l words.old
        → plan.now.geometry.capacity + tail < 2 ^ 64
        → result ≡ reserve_seen plan.now side how count l had (Some (word, tail)) }
    ensures after { words.new ≡ words_after words.old result }
    ensures answered { result ≢ NoSpan }
{
    let mode = plan.mode(side);
    let geometry = plan.geometry;
    let position = position_of(geometry, mode, word);
    let room = room_of(side, geometry.capacity(), position, tail);
    let many = how.granted(count, room);
    if count == 0 || (matches!(side, Side::Put) && plan.free && had < count) {
        return Reply::BadCount;
    }
    if many == 0 {
        return Reply::NoRoom(room);
    }
    let last = geometry.last();
    if position > last || many > last - position {
        return Reply::Worn;
    }
    let own = words.word(geometry, mode);
    if own != word {
        return Reply::Contended(own);
    }
    words.head = position + many;
    Reply::Granted(position, many, room - many)
}
