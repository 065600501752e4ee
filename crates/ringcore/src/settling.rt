//! Settles: one store to the tail, after which the items of a put are published, or those of a take dequeued.

ghost use Rattle.std.specs.Prelude.{◌≡◌, List, take, IfOk, OnErr};
ghost use Rattle.ringcore_laws.specs.declared.contents.Item.{Item as AnItem};
ghost use Rattle.ringcore_laws.specs.History.{is_bad_settle as is_bad_count};
ghost use Rattle.ringcore.specs.Changes.{IsPublished, PutResult, TakeResult, start_at, with_items, words_moved_to};
ghost use Rattle.ringcore.specs.Replies.{put_answer, take_answer};
ghost use Rattle.ringcore_laws.specs.Runs.{is_done as is_done_reply};

use crate::member::{Member, buffer_count};
use crate::places::{hold_items, queue_items};
use crate::ring::{Ring, Words};
use crate::sides::is_on;
use geom::{How, Mode, RingPlan, Side};
use ringcore_laws::{Item, Items, Place, Reply, Span};
use std::alloc::{AllocError, Global};
use std::collections::VecDeque;

/// Publishes these items at the first positions of the open put span, if it is the first of its side. Takes no memory.
pub fn settle_put(
    alloc: Global,
    plan: &RingPlan,
    ring: &mut Ring,
    number: usize,
    items: Items,
    member: &mut Member,
    places: &mut [Place],
) -> Reply
    ensures reply { result
        ≡ put_answer plan.now number ring.old.put.tail member.old.number places.old items member.old.span }
    ensures settled { PutResult plan.now number member.old member.new ring.old ring.new places.old places.new items
        result }
{
    let list = items.into_vec();
    let reply = answer_put(alloc, plan, number, ring.put.tail, member, &list, places);
    if is_done(&reply) {
        publish(plan, ring, number, list, member, places);
    }
    reply
}

/// Queues items at the first positions of the member's span, which is then settled.
fn publish(
    plan: &RingPlan,
    ring: &mut Ring,
    number: usize,
    items: Vec<Item>,
    member: &mut Member,
    places: &mut [Place],
)
    ensures { IsPublished plan.now number member.old member.new ring.old ring.new places.old places.new items.items }
{
    let start = first_of(member.span);
    // A span that was granted ends at the ring's last position at most, so the sum is exact; the member alone doesn't
    // show that.
    let end = start.saturating_add(items.len() as u64);
    queue_items(places, number, start, &items);
    // The member holds the buffers of a put that is done, so the difference is exact; its count alone doesn't show
    // that.
    member.count = member.count.saturating_sub(buffer_count(&items));
    member.span = None;
    settle_words(&mut ring.put, plan.put, end);
    let mut rest = VecDeque::from(items);
    ring.queue.put(How::Burst, &mut rest);
}

/// The first position of a span.
fn first_of(span: Option<Span>) -> u64
    ensures { result ≡ start_at span }
{
    match span {
        None => 0,
        Some(span) => span.start,
    }
}

/// The reply to the settle of a put. The entries of the numbers are unchanged.
fn answer_put(
    alloc: Global,
    plan: &RingPlan,
    number: usize,
    tail: u64,
    member: &Member,
    items: &[Item],
    numbers: &mut [Place],
) -> Reply
    ensures answer { result
        ≡ put_answer plan.now number tail member.now.number numbers.old items.now member.now.span }
    ensures kept { numbers.new ≡ numbers.old }
{
    let Some(span) = member.span else {
        return Reply::NoSpan;
    };
    if !is_on(span.ring, span.side, number, Side::Put) {
        return Reply::NoSpan;
    }
    if is_bad_settle(plan.put, items.len() as u64, span.count) {
        return Reply::BadCount;
    }
    if !member.may_put(plan.free, items, numbers) {
        return Reply::NotYours;
    }
    if tail != span.start {
        return Reply::NotYet(tail);
    }
    Reply::Done(items.len() as u64, Items::of(Vec::new(alloc)))
}

/// Dequeues the items at the first `count` positions of the open take span, if it is the first of its side. Takes
/// memory for their list; if that fails, nothing has changed.
pub fn settle_take(
    alloc: Global,
    plan: &RingPlan,
    ring: &mut Ring,
    number: usize,
    count: u64,
    member: &mut Member,
    places: &mut [Place],
) -> Result<Reply, AllocError>
    ensures reply { IfOk result (λ r. r
        ≡ take_answer plan.now number ring.old.take.tail ring.old.queue.items count member.old.span) }
    ensures settled { IfOk result (λ r. TakeResult plan.now member.old member.new ring.old ring.new places.old
        places.new count r) }
    ensures memory { OnErr result ((member.new ≡ member.old) × (ring.new ≡ ring.old) × (places.new ≡ places.old)) }
{
    let Some(span) = member.span else {
        return Ok(Reply::NoSpan);
    };
    let reply = answer_take(alloc, plan, number, ring.take.tail, count, member.span);
    if !is_done(&reply) {
        return Ok(reply);
    }
    let mut taken = Vec::new(alloc);
    ring.queue.take(How::Burst, count, &mut taken)?;
    hold_items(places, member.number, &taken);
    // A member holds at most all of the world's buffers, so the sum is exact; the ring alone doesn't show that.
    member.count = member.count.saturating_add(buffer_count(&taken));
    // Exact, as in `publish`.
    settle_words(&mut ring.take, plan.take, span.start.saturating_add(count));
    member.span = None;
    Ok(Reply::Done(count, Items::of(taken)))
}

/// Whether the reply to the settle of a take is Done, and otherwise which it is.
fn answer_take(
    alloc: Global,
    plan: &RingPlan,
    number: usize,
    tail: u64,
    count: u64,
    span: Option<Span>,
) -> Reply
    ensures { (queued : List AnItem)
        → take_answer plan.now number tail queued count span ≡ with_items result (take count queued) }
{
    let Some(span) = span else {
        return Reply::NoSpan;
    };
    if !is_on(span.ring, span.side, number, Side::Take) {
        return Reply::NoSpan;
    }
    if is_bad_settle(plan.take, count, span.count) {
        return Reply::BadCount;
    }
    if span.start != tail {
        return Reply::NotYet(tail);
    }
    Reply::Done(count, Items::of(Vec::new(alloc)))
}

fn is_bad_settle(mode: Mode, count: u64, reserved: u64) -> bool
    ensures { result ≡ is_bad_count mode count reserved }
{
    match mode {
        Mode::Multi => count != reserved,
        Mode::Hts => reserved < count,
    }
}

fn settle_words(words: &mut Words, mode: Mode, end: u64)
    ensures { words.new ≡ words_moved_to mode words.old end }
{
    words.tail = end;
    match mode {
        Mode::Multi => {}
        Mode::Hts => words.head = end,
    }
}

fn is_done(reply: &Reply) -> bool
    ensures { result ≡ is_done_reply reply.now }
{
    matches!(reply, Reply::Done(..))
}
