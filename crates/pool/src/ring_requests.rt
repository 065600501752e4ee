//! The bulk requests that a cache makes of its free ring, for any kind of list.
ghost use Rattle.std.specs.Prelude.{◌≡◌, ◌+◌, ◌<◌, ◌≤◌, [], length, IfOk, IfErr};
ghost use Rattle.ringcore_laws.specs.FreeRings.{AreSingle};
ghost use Rattle.fabric.specs.Hands.{IsHandOf, OnRing, view};
ghost use Rattle.fabric.specs.Settles.{AreOwnBuffers};
ghost use Rattle.ringapi.specs.Holdings.{HasLess, HasMore};
ghost use Rattle.pool_laws.specs.Requests.{Refills, Spills, Takes, refusal_of};
ghost use Rattle.pool_laws.specs.Hands.{IsFreeOf};

use burst::Tagged;
use fabric::{Fabric, Hand, PutItems, StartFault, Stored, TakeItems};
use geom::How;
use pool_laws::PoolFault;
use ringapi::{PutAnswer, TakeAnswer, put_own, take_into};
use std::sync::Wait;

/// What a refused take from the free ring means to a caller that wants buffers: `Worn`, or else `Short`.
fn refusal(fault: StartFault) -> PoolFault
    ensures { result ≡ refusal_of fault }
{
    match fault {
        StartFault::Worn => PoolFault::Worn,
        _ => PoolFault::Short,
    }
}

/// One bulk take of `n` items, tried until it succeeds or is refused. At a refusal the list stays as it is.
fn take_bulk<T: Tagged, const N: usize, S: Stored<T>, I: TakeItems<T>, R: Wait>(
    rt: &R,
    f: &Fabric<T, N, S>,
    hand: Hand<T, S>,
    ring: usize,
    n: usize,
    into: &mut I,
) -> Result<Hand<T, S>, (Hand<T, S>, PoolFault)>
    requires hand { IsHandOf f.now hand }
    requires free { IsFreeOf f.now ring }
    requires nonzero { 0 < n }
    requires at_most { n ≤ N }
    requires fits { n ≤ I.room into.old }
    requires empty { I.items into.old ≡ [] }
    ensures kept { IfOk result (IsHandOf f.now) }
    ensures back { IfErr result (λ e. IsHandOf f.now e.0 × (into.new ≡ into.old)) }
    ensures exact { OnRing f.now ring
        (λ plan. Takes T.numbers N ring plan (view hand) n result (I.items into.new)) }
    ensures length { IfOk result (λ _. length (I.items into.new) ≡ n) }
    ensures more { IfOk result (λ h. HasMore T.numbers (view hand).party (I.items into.new) (view h).party) }
    ensures single { IfOk result (λ _. AreSingle T.numbers (I.items into.new)) }
    ensures same { IfErr result (λ e. (view e.0).party ≡ (view hand).party) }
    ensures beside { IfOk result (λ _. I.beside into.old into.new) }
{
    match take_into(rt, f, hand, ring, n, How::Bulk, into) {
        TakeAnswer::Done(hand, _) => Ok(hand),
        TakeAnswer::Refused(hand, fault) => Err((hand, refusal(fault))),
        TakeAnswer::Open(_, _) => unreachable!(),
    }
}

/// The `missing` items that a cache lacks, and `size` more; if the ring doesn't have that many, the missing ones alone.
pub(crate) fn refill<T: Tagged, const N: usize, S: Stored<T>, I: TakeItems<T>, R: Wait>(
    rt: &R,
    f: &Fabric<T, N, S>,
    hand: Hand<T, S>,
    ring: usize,
    missing: usize,
    size: usize,
    into: &mut I,
) -> Result<Hand<T, S>, (Hand<T, S>, PoolFault)>
    requires hand { IsHandOf f.now hand }
    requires free { IsFreeOf f.now ring }
    requires nonzero { 0 < missing }
    requires at_most { missing + size ≤ N }
    requires fits { missing + size ≤ I.room into.old }
    requires empty { I.items into.old ≡ [] }
    ensures kept { IfOk result (IsHandOf f.now) }
    ensures back { IfErr result (λ e. IsHandOf f.now e.0 × (into.new ≡ into.old)) }
    ensures exact { OnRing f.now ring
        (λ plan. Refills T.numbers N ring plan size (view hand) missing result (I.items into.new)) }
    ensures enough { IfOk result (λ _. missing ≤ length (I.items into.new)) }
    ensures length { IfOk result (λ _. length (I.items into.new) ≤ missing + size) }
    ensures more { IfOk result (λ h. HasMore T.numbers (view hand).party (I.items into.new) (view h).party) }
    ensures single { IfOk result (λ _. AreSingle T.numbers (I.items into.new)) }
    ensures same { IfErr result (λ e. (view e.0).party ≡ (view hand).party) }
    ensures beside { IfOk result (λ _. I.beside into.old into.new) }
{
    let first = take_bulk(rt, f, hand, ring, missing + size, into);
    if size == 0 {
        return first;
    }
    match first {
        Ok(hand) => Ok(hand),
        Err((hand, _)) => take_bulk(rt, f, hand, ring, missing, into),
    }
}

/// One bulk put of all items of a list that the hand may put, tried until it succeeds or is refused. Refused only if
/// the ring is worn; nothing changes then.
pub(crate) fn put_bulk<T: Tagged, const N: usize, S: Stored<T>, I: PutItems<T>, R: Wait>(
    rt: &R,
    f: &Fabric<T, N, S>,
    hand: Hand<T, S>,
    ring: usize,
    list: &mut I,
) -> Result<Hand<T, S>, Hand<T, S>>
    requires hand { IsHandOf f.now hand }
    requires free { IsFreeOf f.now ring }
    requires own { AreOwnBuffers T.numbers (view hand) (I.items list.old) }
    requires nonzero { 0 < length (I.items list.old) }
    requires room { length (I.items list.old) ≤ N }
    ensures kept { IfOk result (IsHandOf f.now) }
    ensures same { IfErr result (IsHandOf f.now) }
    ensures exact { OnRing f.now ring (λ plan. Spills T.numbers N ring plan (view hand) (I.items list.old) result) }
    ensures less { IfOk result (λ h. HasLess T.numbers (view hand).party (I.items list.old) (view h).party) }
    ensures party { IfErr result (λ h. (view h).party ≡ (view hand).party) }
    ensures done { IfOk result (λ _. I.items list.new ≡ I.left (I.items list.old) 0) }
    ensures back { IfErr result (λ _. I.items list.new ≡ I.items list.old) }
{
    match put_own(rt, f, hand, ring, How::Bulk, list) {
        PutAnswer::Done(hand, _) => Ok(hand),
        PutAnswer::Refused(hand, _) => Err(hand),
        PutAnswer::Open(_, _) => unreachable!(),
    }
}
