//! Reservations: one compare-and-exchange of the own word.

ghost use Rattle.std.specs.Prelude.{◌≡◌, is_some, if◌then◌else◌};
ghost use Rattle.geom.specs.Plan.{mode_of};
ghost use Rattle.ringcore_laws.specs.declared.contents.Item.{Item as AnItem};
ghost use Rattle.ringcore_laws.specs.declared.protocol.Reply.TheVariants.{NoSpan};
ghost use Rattle.ringcore_laws.specs.RingSide.{RingSide};
ghost use Rattle.ringcore_laws.specs.HeadTailRule.{RuledSide};
ghost use Rattle.ringcore_laws.specs.History.{reserve_seen as seen_reply, seen_on};
ghost use Rattle.ringcore.specs.Agree.{WordsAgree};
ghost use Rattle.ringcore.specs.Changes.{side_words, member_tried, ring_tried, words_after};
ghost use Rattle.ringcore.specs.Replies.{TailFits, reserve_answer};

use crate::member::Member;
use crate::ring::{Ring, Words, try_reserve};
use crate::sides::is_on;
use geom::{How, RingPlan, Side};
use ringcore_laws::{Observed, Reply, Span};

/// Tries to reserve positions of a side, by what the member has seen of it: everything that the reply reports changes,
/// and nothing else.
pub fn reserve(
    plan: &RingPlan,
    ring: &mut Ring,
    number: usize,
    side: Side,
    how: How,
    count: u64,
    member: &mut Member,
) -> Reply
    ensures reply { (l : RingSide AnItem) → RuledSide plan.now.geometry (mode_of plan.now side) l
        → WordsAgree (mode_of plan.now side) l (side_words ring.old side)
        → TailFits plan.now member.old.observed
        → result ≡ reserve_answer plan.now number side how count l member.old }
    ensures member { member.new ≡ member_tried member.old number side result }
    ensures ring { ring.new ≡ ring_tried ring.old side result }
{
    match side {
        Side::Put => reserve_on(&mut ring.put, plan, number, side, how, count, member),
        Side::Take => reserve_on(&mut ring.take, plan, number, side, how, count, member),
    }
}

fn reserve_on(
    words: &mut Words,
    plan: &RingPlan,
    number: usize,
    side: Side,
    how: How,
    count: u64,
    member: &mut Member,
) -> Reply
    ensures reply { (l : RingSide AnItem) → RuledSide plan.now.geometry (mode_of plan.now side) l
        → WordsAgree (mode_of plan.now side) l words.old
        → TailFits plan.now member.old.observed
        → result ≡ reserve_answer plan.now number side how count l member.old }
    ensures member { member.new ≡ member_tried member.old number side result }
    ensures words { words.new ≡ words_after words.old result }
{
    if member.span.is_some() {
        return Reply::NoSpan;
    }
    let had = member.count;
    let reply = reserve_seen(words, plan, number, side, how, count, had, member.observed);
    note_tried(member, number, side, &reply);
    reply
}

fn reserve_seen(
    words: &mut Words,
    plan: &RingPlan,
    number: usize,
    side: Side,
    how: How,
    count: u64,
    had: u64,
    observed: Option<Observed>,
) -> Reply
    ensures reply { (l : RingSide AnItem) → RuledSide plan.now.geometry (mode_of plan.now side) l
        → WordsAgree (mode_of plan.now side) l words.old → TailFits plan.now observed
        → result ≡ seen_reply plan.now side how count l had (seen_on number side observed) }
    ensures words { words.new ≡ words_after words.old result }
{
    let Some(observed) = observed else {
        return Reply::NoSpan;
    };
    if !is_on(observed.ring, observed.side, number, side) {
        return Reply::NoSpan;
    }
    let Some(tail) = observed.tail_seen else {
        return Reply::NoSpan;
    };
    try_reserve(words, plan, side, how, count, had, observed.looked_at, tail)
}

fn note_tried(member: &mut Member, number: usize, side: Side, reply: &Reply)
    ensures { member.new ≡ member_tried member.old number side reply.now }
{
    match reply {
        Reply::NoSpan => {}
        Reply::Granted(start, count, _) => {
            member.observed = None;
            member.span = Some(Span {
                ring: number,
                side,
                start: *start,
                count: *count,
            });
        }
        _ => member.observed = None,
    }
}
