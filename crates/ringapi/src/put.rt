//! Whole puts of any list: of a burst, or of the words of a slice.
ghost use Rattle.std.specs.Prelude.{◌≡◌, ◌<◌, ◌≤◌, [], ℕ, length, take};
ghost use Rattle.geom.specs.declared.plan.RingPlan.{RingPlan};
ghost use Rattle.fabric_laws.specs.declared.view.View.{View};
ghost use Rattle.fabric.specs.Hands.{IsHandOf, OnRing, put_span, put_view, rings_of, view};
ghost use Rattle.fabric.specs.Settles.{AreYours};
ghost use Rattle.ringapi.specs.Puts.{IsPutOf, IsUnfinishedPut, PutHasTold, PutTells, SettlesPut};
ghost use Rattle.ringapi.specs.Puts.{left_of, rest_by};
ghost use Rattle.ringapi.specs.Truths.{IsTruePut};
ghost use Rattle.ringapi.specs.Whole.{MakesPut, TriesPut};

use crate::answers::{Moved, PutAnswer, Refusal};
use crate::pauses::Pauses;
use burst::Tagged;
use fabric::{Fabric, Hand, PutItems, PutOpen, SettleFault, Stored};
use geom::How;
use std::sync::Wait;

/// Tries once to settle a span with the first items of a list.
fn settle<'f, T: Tagged, const N: usize, S: Stored<T>, I: PutItems<T>>(
    span: PutOpen<'f, T, N, S>,
    list: &mut I,
) -> PutAnswer<'f, T, N, S>
    requires fits { (put_span span).count ≤ length (I.items list.old) }
    requires yours { AreYours T.numbers span.ring.shape.now.plan (put_view span)
        (take (put_span span).count (I.items list.old)) }
    ensures settled { SettlesPut span.entry (I.items list.old) result (left_of result (I.items list.old)) }
    ensures list { I.items list.new ≡ rest_by I.after result (I.items list.old) }
    ensures true_refusal { (ring : ℕ) (plan : RingPlan) → IsTruePut T.numbers ring plan result }
{
    let moved = Moved {
        count: span.count(),
        left: span.left(),
    };
    match span.try_settle_first_from(moved.count, list) {
        Ok(hand) => PutAnswer::Done(hand, moved),
        Err((span, fault)) => match fault {
            SettleFault::NotYet(tail) => PutAnswer::Open(span, tail),
            _ => unreachable!(),
        },
    }
}

/// Tries once to put all items of a list that the hand may put, or as many of its first ones as there is room for.
/// Nothing is tested before the start. Requires: the hand may put them. `PutItems::after` says what is left in the
/// list.
///
/// Errors, in the order of the tests: `BadCount` if the list is empty or has more than `N` items; `Busy`; `NoRoom`;
/// `Worn`; `Contended`. `Open` on a multi side alone. No memory, no waiting; at most four steps on words.
pub fn try_put_own<'f, T: Tagged, const N: usize, S: Stored<T>, I: PutItems<T>>(
    f: &'f Fabric<T, N, S>,
    hand: Hand<T, S>,
    ring: usize,
    how: How,
    list: &mut I,
) -> PutAnswer<'f, T, N, S>
    requires hand { IsHandOf f.now hand }
    requires ring { ring < length (rings_of f.now) }
    requires yours { OnRing f.now ring (λ plan. AreYours T.numbers plan (view hand) (I.items list.old)) }
    ensures made { IsPutOf f.now ring result }
    ensures exact { OnRing f.now ring
        (λ plan. PutTells T.numbers how ring plan (view hand) (I.items list.old) [] [] result
        (left_of result (I.items list.old))) }
    ensures list { I.items list.new ≡ rest_by I.after result (I.items list.old) }
    ensures true_refusal { OnRing f.now ring (λ plan. IsTruePut T.numbers ring plan result) }
{
    match f.try_start_put(hand, ring, list.len(), how) {
        Ok(span) => settle(span, list),
        Err((hand, fault)) => PutAnswer::Refused(hand, Refusal::Start(fault)),
    }
}

/// A whole put, tried once.
pub(crate) fn try_put<'f, T: Tagged, const N: usize, S: Stored<T>, I: PutItems<T>>(
    f: &'f Fabric<T, N, S>,
    hand: Hand<T, S>,
    ring: usize,
    how: How,
    list: &mut I,
) -> PutAnswer<'f, T, N, S>
    requires hand { IsHandOf f.now hand }
    requires ring { ring < length (rings_of f.now) }
    ensures put { TriesPut T.numbers how f.now ring hand (I.items list.old) result
        (left_of result (I.items list.old)) }
    ensures list { I.items list.new ≡ rest_by I.after result (I.items list.old) }
{
    let mut hand = hand;
    if !hand.may_put(f, ring, list) {
        return PutAnswer::Refused(hand, Refusal::NotYours);
    }
    try_put_own(f, hand, ring, how, list)
}

/// The next try of a put that isn't finished.
fn again<'f, T: Tagged, const N: usize, S: Stored<T>, I: PutItems<T>>(
    f: &'f Fabric<T, N, S>,
    answer: PutAnswer<'f, T, N, S>,
    ring: usize,
    how: How,
    list: &mut I,
) -> PutAnswer<'f, T, N, S>
    requires made { IsPutOf f.now ring answer }
    requires ring { ring < length (rings_of f.now) }
    requires unfinished { IsUnfinishedPut answer }
    requires exact { OnRing f.now ring (λ plan. (v : View T) × PutHasTold T.numbers how ring plan v
        (I.items list.old) answer (left_of answer (I.items list.old))) }
    ensures made { IsPutOf f.now ring result }
    ensures exact { OnRing f.now ring (λ plan. (v : View T) → PutHasTold T.numbers how ring plan v
        (I.items list.old) answer.entry (left_of answer.entry (I.items list.old))
        → PutHasTold T.numbers how ring plan v (I.items list.old) result (left_of result (I.items list.old))) }
    ensures list { I.items list.new ≡ rest_by I.after result (I.items list.old) }
    ensures true_refusal { OnRing f.now ring (λ plan. IsTruePut T.numbers ring plan result) }
{
    match answer {
        PutAnswer::Done(_, _) => unreachable!(),
        PutAnswer::Refused(hand, _) => try_put_own(f, hand, ring, how, list),
        PutAnswer::Open(span, _) => settle(span, list),
    }
}

/// Puts all items of a list that the hand may put, or as many of its first ones as there is room for, and tries again
/// after `Busy`, `Contended` and a settle that comes too early, with pauses in between. Nothing is tested before the
/// start. Requires: the hand may put them. `PutItems::after` says what is left in the list.
///
/// Errors, in the order of the tests: `BadCount` if the list is empty or has more than `N` items; `NoRoom`; `Worn`.
/// Never `NotYours`, `Open`, `Busy` or `Contended`. No memory; any number of steps on words.
pub fn put_own<'f, T: Tagged, const N: usize, S: Stored<T>, I: PutItems<T>, R: Wait>(
    rt: &R,
    f: &'f Fabric<T, N, S>,
    hand: Hand<T, S>,
    ring: usize,
    how: How,
    list: &mut I,
) -> PutAnswer<'f, T, N, S>
    requires hand { IsHandOf f.now hand }
    requires ring { ring < length (rings_of f.now) }
    requires yours { OnRing f.now ring (λ plan. AreYours T.numbers plan (view hand) (I.items list.old)) }
    ensures put { MakesPut T.numbers how f.now ring hand (I.items list.old) result
        (left_of result (I.items list.old)) }
    ensures list { I.items list.new ≡ rest_by I.after result (I.items list.old) }
{
    let mut pauses = Pauses::new();
    let mut answer = try_put_own(f, hand, ring, how, list);
    for _ in rt.forever() {
        if !answer.should_retry() {
            return answer;
        }
        pauses.wait(rt);
        answer = again(f, answer, ring, how, list);
    }
    unreachable!()
}

/// A whole put, tried until it is finished.
pub(crate) fn put<'f, T: Tagged, const N: usize, S: Stored<T>, I: PutItems<T>, R: Wait>(
    rt: &R,
    f: &'f Fabric<T, N, S>,
    hand: Hand<T, S>,
    ring: usize,
    how: How,
    list: &mut I,
) -> PutAnswer<'f, T, N, S>
    requires hand { IsHandOf f.now hand }
    requires ring { ring < length (rings_of f.now) }
    ensures put { MakesPut T.numbers how f.now ring hand (I.items list.old) result
        (left_of result (I.items list.old)) }
    ensures list { I.items list.new ≡ rest_by I.after result (I.items list.old) }
{
    let mut hand = hand;
    if hand.may_put(f, ring, list) {
        put_own(rt, f, hand, ring, how, list)
    } else {
        PutAnswer::Refused(hand, Refusal::NotYours)
    }
}
