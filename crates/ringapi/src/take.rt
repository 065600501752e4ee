//! Whole takes into any list: a burst, or the front of a slice.
ghost use Rattle.std.specs.Prelude.{◌≡◌, ◌<◌, ◌≤◌, [], ℕ, length};
ghost use Rattle.geom.specs.declared.plan.RingPlan.{RingPlan};
ghost use Rattle.fabric_laws.specs.declared.view.View.{View};
ghost use Rattle.fabric.specs.Hands.{IsHandOf, OnRing, rings_of, take_view, view};
ghost use Rattle.ringapi.specs.Takes.{IsTakeOf, IsUnfinishedTake, LeavesRoom, SettlesTake, TakeHasTold};
ghost use Rattle.ringapi.specs.Truths.{IsTrueTake};
ghost use Rattle.ringapi.specs.Whole.{MakesTake, TriesTake};

use crate::answers::{Moved, TakeAnswer};
use crate::pauses::Pauses;
use burst::Tagged;
use fabric::{Fabric, Hand, SettleFault, Stored, TakeItems, TakeOpenLent};
use geom::How;
use std::sync::Wait;

/// Tries once to settle a span with all its items.
fn settle<'f, T: Tagged, const N: usize, S: Stored<T>, I: TakeItems<T>>(
    span: TakeOpenLent<'f, T, N, S>,
    items: &mut I,
) -> TakeAnswer<'f, T, N, S>
    requires shows { I.items items.old ≡ (take_view span).shown }
    ensures settled { SettlesTake T.numbers span.entry (I.items items.old) result (I.items items.new) }
    ensures beside { (before : I) → I.beside before items.old → I.beside before items.new }
    ensures true_refusal { (ring : ℕ) (plan : RingPlan) → IsTrueTake T.numbers ring plan result }
{
    let moved = Moved {
        count: span.count(),
        left: span.left(),
    };
    match span.try_settle_into(moved.count, items) {
        Ok(hand) => TakeAnswer::Done(hand, moved),
        Err((span, fault)) => match fault {
            SettleFault::NotYet(tail) => TakeAnswer::Open(span, tail),
            _ => unreachable!(),
        },
    }
}

/// A whole take, tried once.
pub(crate) fn try_take<'f, T: Tagged, const N: usize, S: Stored<T>, I: TakeItems<T>>(
    f: &'f Fabric<T, N, S>,
    hand: Hand<T, S>,
    ring: usize,
    n: usize,
    how: How,
    into: &mut I,
) -> TakeAnswer<'f, T, N, S>
    requires hand { IsHandOf f.now hand }
    requires ring { ring < length (rings_of f.now) }
    requires fits { (m : ℕ) → m ≤ n → m ≤ N → m ≤ I.room into.old }
    requires empty { I.items into.old ≡ [] }
    ensures taken { TriesTake T.numbers how n f.now ring hand result (I.items into.new) }
    ensures beside { LeavesRoom I.beside into.old result into.new }
{
    match f.try_start_take_into(hand, ring, n, how, into) {
        Ok(span) => settle(span, into),
        Err((hand, fault)) => TakeAnswer::Refused(hand, fault),
    }
}

/// The next try of a take that isn't finished.
fn again<'f, T: Tagged, const N: usize, S: Stored<T>, I: TakeItems<T>>(
    f: &'f Fabric<T, N, S>,
    answer: TakeAnswer<'f, T, N, S>,
    ring: usize,
    n: usize,
    how: How,
    into: &mut I,
) -> TakeAnswer<'f, T, N, S>
    requires made { IsTakeOf f.now ring answer }
    requires ring { ring < length (rings_of f.now) }
    requires unfinished { IsUnfinishedTake answer }
    requires exact { OnRing f.now ring
        (λ plan. (v : View T) × TakeHasTold T.numbers how n ring plan v answer (I.items into.old)) }
    requires fits { (before : I) × LeavesRoom I.beside before answer into.old
        × ((m : ℕ) → m ≤ n → m ≤ N → m ≤ I.room before) }
    ensures made { IsTakeOf f.now ring result }
    ensures exact { OnRing f.now ring (λ plan. (v : View T)
        → TakeHasTold T.numbers how n ring plan v answer.entry (I.items into.old)
        → TakeHasTold T.numbers how n ring plan v result (I.items into.new)) }
    ensures beside { (before : I) → LeavesRoom I.beside before answer.entry into.old
        → LeavesRoom I.beside before result into.new }
    ensures true_refusal { OnRing f.now ring (λ plan. IsTrueTake T.numbers ring plan result) }
{
    match answer {
        TakeAnswer::Done(_, _) => unreachable!(),
        TakeAnswer::Refused(hand, _) => try_take(f, hand, ring, n, how, into),
        TakeAnswer::Open(span, _) => settle(span, into),
    }
}

/// Takes `n` items into an empty list, or at most `n`, as many as are queued, and tries again after `Busy`, `Contended`
/// and a settle that comes too early, with pauses in between. It doesn't wait for items. Requires: the list is empty,
/// and has room.
///
/// Errors, in the order of the tests: `BadCount` if `n` is 0 or above `N`, before any step; `NoRoom`; `Worn`. Never
/// `Open`, `Busy` or `Contended`. No memory; any number of steps on words.
pub fn take_into<'f, T: Tagged, const N: usize, S: Stored<T>, I: TakeItems<T>, R: Wait>(
    rt: &R,
    f: &'f Fabric<T, N, S>,
    hand: Hand<T, S>,
    ring: usize,
    n: usize,
    how: How,
    into: &mut I,
) -> TakeAnswer<'f, T, N, S>
    requires hand { IsHandOf f.now hand }
    requires ring { ring < length (rings_of f.now) }
    requires fits { (m : ℕ) → m ≤ n → m ≤ N → m ≤ I.room into.old }
    requires empty { I.items into.old ≡ [] }
    ensures taken { MakesTake T.numbers how n f.now ring hand result (I.items into.new) }
    ensures beside { LeavesRoom I.beside into.old result into.new }
{
    let mut pauses = Pauses::new();
    let mut answer = try_take(f, hand, ring, n, how, into);
    for _ in rt.forever() {
        if !answer.should_retry() {
            return answer;
        }
        pauses.wait(rt);
        answer = again(f, answer, ring, n, how, into);
    }
    unreachable!()
}
