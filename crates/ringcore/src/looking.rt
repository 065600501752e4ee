//! Looks, and questions for room: one load each.

ghost use Rattle.std.specs.Prelude.{◌≡◌};
ghost use Rattle.geom.specs.Plan.{mode_of};
ghost use Rattle.ringcore_laws.specs.declared.contents.Item.{Item as AnItem};
ghost use Rattle.ringcore_laws.specs.RingSide.{RingSide};
ghost use Rattle.ringcore_laws.specs.HeadTailRule.{RuledSide};
ghost use Rattle.ringcore_laws.specs.History.{Actor, look_reply, room_reply, other_side};
ghost use Rattle.ringcore.specs.Agree.{WordsAgree};
ghost use Rattle.ringcore.specs.Changes.{side_words, member_looked, member_asked};

use crate::member::Member;
use crate::ring::Ring;
use crate::sides::is_on;
use geom::{RingPlan, Side};
use ringcore_laws::{Observed, Reply};

/// Loads the own word of a side; the member keeps the word found, unless the side is busy.
pub fn look(plan: &RingPlan, ring: &Ring, number: usize, side: Side, member: &mut Member) -> Reply
    ensures reply { (l : RingSide AnItem) (a : Actor) → RuledSide plan.now.geometry (mode_of plan.now side) l
        → WordsAgree (mode_of plan.now side) l (side_words ring.now side)
        → a.party.span ≡ member.old.span → result ≡ look_reply plan.now.geometry (mode_of plan.now side) l a }
    ensures after { member.new ≡ member_looked member.old number side result }
{
    if member.span.is_some() {
        return Reply::NoSpan;
    }
    let mode = plan.mode(side);
    let words = match side {
        Side::Put => &ring.put,
        Side::Take => &ring.take,
    };
    let word = words.word(plan.geometry, mode);
    if words.is_busy(mode) {
        member.observed = None;
        return Reply::Busy(word);
    }
    member.observed = Some(Observed {
        ring: number,
        side,
        looked_at: word,
        tail_seen: None,
    });
    Reply::Seen(word)
}

/// Loads the tail of the other side, after a look at this one.
pub fn room(ring: &Ring, number: usize, side: Side, member: &mut Member) -> Reply
    ensures reply { (l : RingSide AnItem) (a : Actor) → l.len ≡ (side_words ring.now (other_side side)).tail
        → a.party.span ≡ member.old.span → a.observed ≡ member.old.observed → result ≡ room_reply number side l a }
    ensures after { member.new ≡ member_asked member.old result }
{
    if member.span.is_some() {
        return Reply::NoSpan;
    }
    let tail = match side {
        Side::Put => ring.take.tail,
        Side::Take => ring.put.tail,
    };
    match member.observed {
        None => Reply::NoSpan,
        Some(observed) => {
            if !is_on(observed.ring, observed.side, number, side) {
                return Reply::NoSpan;
            }
            member.observed = Some(Observed {
                ring: observed.ring,
                side: observed.side,
                looked_at: observed.looked_at,
                tail_seen: Some(tail),
            });
            Reply::Seen(tail)
        }
    }
}
