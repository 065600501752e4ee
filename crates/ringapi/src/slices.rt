//! Whole calls on items that are plain words: a put reads them from a slice and doesn't change it, and a take writes
//! them to the front of one. No burst and no other list is needed. Each call costs as much as the words that it moves.
//!
//! The caller finishes an answer `Open`, as with a burst: of a put by `PutOpen::try_settle_from` with the first words
//! of the slice, as many as the span has positions; of a take by `TakeOpenLent::try_settle_into` with all that the
//! span has, which are at the front of the slice.
ghost use Rattle.std.specs.Prelude.{◌≡◌, ◌<◌, ◌++◌, List, drop, length};
ghost use Rattle.fabric.specs.Hands.{IsHandOf, OnRing, rings_of, view};
ghost use Rattle.fabric.specs.Settles.{AreYours};
ghost use Rattle.ringapi.specs.Puts.{left_of};
ghost use Rattle.ringapi.specs.Views.{by_bulk, by_burst};
ghost use Rattle.ringapi.specs.Whole.{MakesPut, MakesTake, TriesPut, TriesTake};

use crate::answers::{PutAnswer, TakeAnswer};
use crate::put::{put, put_own, try_put};
use crate::take::{take_into, try_take};
use burst::Word;
use fabric::{Fabric, Front, Hand, Stored, Words};
use geom::How;
use std::sync::Wait;

/// Tries once to put all words of a slice, or none. The slice isn't changed.
///
/// Errors, in the order of the tests: `NotYours`, before any step; `BadCount` if the slice is empty or has more than
/// `N` words; `Busy`; `NoRoom`; `Worn`; `Contended`. `Open` on a multi side alone. No memory, no waiting; at most four
/// steps on words.
pub fn try_put_bulk_slice<'f, T: Word, const N: usize, S: Stored<T>>(
    f: &'f Fabric<T, N, S>,
    hand: Hand<T, S>,
    ring: usize,
    items: &[T],
) -> PutAnswer<'f, T, N, S>
    requires hand { IsHandOf f.now hand }
    requires ring { ring < length (rings_of f.now) }
    ensures { TriesPut T.numbers by_bulk f.now ring hand items.now result (left_of result items.now) }
{
    try_put(f, hand, ring, How::Bulk, &mut Words { words: items })
}

/// Tries once to put as many words of a slice as there is room for, from its front: `Moved::count` says how many were
/// put. The slice isn't changed.
///
/// Errors, in the order of the tests: `NotYours`, before any step; `BadCount` if the slice is empty or has more than
/// `N` words; `Busy`; `NoRoom`; `Worn`; `Contended`. `Open` on a multi side alone. No memory, no waiting; at most four
/// steps on words.
pub fn try_put_burst_slice<'f, T: Word, const N: usize, S: Stored<T>>(
    f: &'f Fabric<T, N, S>,
    hand: Hand<T, S>,
    ring: usize,
    items: &[T],
) -> PutAnswer<'f, T, N, S>
    requires hand { IsHandOf f.now hand }
    requires ring { ring < length (rings_of f.now) }
    ensures { TriesPut T.numbers by_burst f.now ring hand items.now result (left_of result items.now) }
{
    try_put(f, hand, ring, How::Burst, &mut Words { words: items })
}

/// Puts all words of a slice, or none, and tries again after `Busy`, `Contended` and a settle that comes too early,
/// with pauses in between. It doesn't wait for room. The slice isn't changed.
///
/// Errors, in the order of the tests: `NotYours`, before any step; `BadCount` if the slice is empty or has more than
/// `N` words; `NoRoom`; `Worn`. Never `Open`, `Busy` or `Contended`. No memory; any number of steps on words.
pub fn put_bulk_slice<'f, T: Word, const N: usize, S: Stored<T>, R: Wait>(
    rt: &R,
    f: &'f Fabric<T, N, S>,
    hand: Hand<T, S>,
    ring: usize,
    items: &[T],
) -> PutAnswer<'f, T, N, S>
    requires hand { IsHandOf f.now hand }
    requires ring { ring < length (rings_of f.now) }
    ensures { MakesPut T.numbers by_bulk f.now ring hand items.now result (left_of result items.now) }
{
    put(rt, f, hand, ring, How::Bulk, &mut Words { words: items })
}

/// Puts as many words of a slice as there is room for, from its front, and tries again after `Busy`, `Contended` and a
/// settle that comes too early, with pauses in between. It doesn't wait for room. `Moved::count` says how many were
/// put; the slice isn't changed.
///
/// Errors, in the order of the tests: `NotYours`, before any step; `BadCount` if the slice is empty or has more than
/// `N` words; `NoRoom`; `Worn`. Never `Open`, `Busy` or `Contended`. No memory; any number of steps on words.
pub fn put_burst_slice<'f, T: Word, const N: usize, S: Stored<T>, R: Wait>(
    rt: &R,
    f: &'f Fabric<T, N, S>,
    hand: Hand<T, S>,
    ring: usize,
    items: &[T],
) -> PutAnswer<'f, T, N, S>
    requires hand { IsHandOf f.now hand }
    requires ring { ring < length (rings_of f.now) }
    ensures { MakesPut T.numbers by_burst f.now ring hand items.now result (left_of result items.now) }
{
    put(rt, f, hand, ring, How::Burst, &mut Words { words: items })
}

/// `put_bulk_slice` for words that the hand may put, as a caller that got them from a pool knows: nothing is tested
/// before the start. Requires: it may put them.
///
/// Errors, in the order of the tests: `BadCount` if the slice is empty or has more than `N` words; `NoRoom`; `Worn`.
/// Never `NotYours`, `Open`, `Busy` or `Contended`. No memory; any number of steps on words.
pub fn put_own_bulk_slice<'f, T: Word, const N: usize, S: Stored<T>, R: Wait>(
    rt: &R,
    f: &'f Fabric<T, N, S>,
    hand: Hand<T, S>,
    ring: usize,
    items: &[T],
) -> PutAnswer<'f, T, N, S>
    requires hand { IsHandOf f.now hand }
    requires ring { ring < length (rings_of f.now) }
    requires yours { OnRing f.now ring (λ plan. AreYours T.numbers plan (view hand) items.now) }
    ensures { MakesPut T.numbers by_bulk f.now ring hand items.now result (left_of result items.now) }
{
    put_own(rt, f, hand, ring, How::Bulk, &mut Words { words: items })
}

/// `put_burst_slice` for words that the hand may put, as a caller that got them from a pool knows: nothing is tested
/// before the start. Requires: it may put them.
///
/// Errors, in the order of the tests: `BadCount` if the slice is empty or has more than `N` words; `NoRoom`; `Worn`.
/// Never `NotYours`, `Open`, `Busy` or `Contended`. No memory; any number of steps on words.
pub fn put_own_burst_slice<'f, T: Word, const N: usize, S: Stored<T>, R: Wait>(
    rt: &R,
    f: &'f Fabric<T, N, S>,
    hand: Hand<T, S>,
    ring: usize,
    items: &[T],
) -> PutAnswer<'f, T, N, S>
    requires hand { IsHandOf f.now hand }
    requires ring { ring < length (rings_of f.now) }
    requires yours { OnRing f.now ring (λ plan. AreYours T.numbers plan (view hand) items.now) }
    ensures { MakesPut T.numbers by_burst f.now ring hand items.now result (left_of result items.now) }
{
    put_own(rt, f, hand, ring, How::Burst, &mut Words { words: items })
}

/// Tries once to take as many words as a slice has places, or at most so many, as `try_take_bulk_slice` and
/// `try_take_burst_slice` say.
pub fn try_take_slice<'f, T: Word, const N: usize, S: Stored<T>>(
    f: &'f Fabric<T, N, S>,
    hand: Hand<T, S>,
    ring: usize,
    how: How,
    into: &mut [T],
) -> TakeAnswer<'f, T, N, S>
    requires hand { IsHandOf f.now hand }
    requires ring { ring < length (rings_of f.now) }
    ensures { (shown : List T) × (into.new ≡ shown ++ drop (length shown) into.old)
        × TriesTake T.numbers how (length into.old) f.now ring hand result shown }
{
    let n = into.len();
    let mut front = Front {
        words: into,
        count: 0,
    };
    try_take(f, hand, ring, n, how, &mut front)
}

/// Takes as many words as a slice has places, or at most so many, and tries until it is finished.
fn take_front<'f, T: Word, const N: usize, S: Stored<T>, R: Wait>(
    rt: &R,
    f: &'f Fabric<T, N, S>,
    hand: Hand<T, S>,
    ring: usize,
    how: How,
    into: &mut [T],
) -> TakeAnswer<'f, T, N, S>
    requires hand { IsHandOf f.now hand }
    requires ring { ring < length (rings_of f.now) }
    ensures { (shown : List T) × (into.new ≡ shown ++ drop (length shown) into.old)
        × MakesTake T.numbers how (length into.old) f.now ring hand result shown }
{
    let n = into.len();
    let mut front = Front {
        words: into,
        count: 0,
    };
    take_into(rt, f, hand, ring, n, how, &mut front)
}

/// Tries once to take as many words as a slice has places, or none. The slice has them afterwards; at a refusal it is
/// unchanged.
///
/// Errors, in the order of the tests: `BadCount` if the slice is empty or has more than `N` places, before any step;
/// `Busy`; `NoRoom`; `Worn`; `Contended`. `Open` on a multi side alone. No memory, no waiting; at most four steps on
/// words.
pub fn try_take_bulk_slice<'f, T: Word, const N: usize, S: Stored<T>>(
    f: &'f Fabric<T, N, S>,
    hand: Hand<T, S>,
    ring: usize,
    into: &mut [T],
) -> TakeAnswer<'f, T, N, S>
    requires hand { IsHandOf f.now hand }
    requires ring { ring < length (rings_of f.now) }
    ensures { (shown : List T) × (into.new ≡ shown ++ drop (length shown) into.old)
        × TriesTake T.numbers by_bulk (length into.old) f.now ring hand result shown }
{
    try_take_slice(f, hand, ring, How::Bulk, into)
}

/// Tries once to take at most as many words as a slice has places, as many as are queued. They are at the front of the
/// slice afterwards, and `Moved::count` says how many; the places after them, and at a refusal all places, are
/// unchanged.
///
/// Errors, in the order of the tests: `BadCount` if the slice is empty or has more than `N` places, before any step;
/// `Busy`; `NoRoom`; `Worn`; `Contended`. `Open` on a multi side alone. No memory, no waiting; at most four steps on
/// words.
pub fn try_take_burst_slice<'f, T: Word, const N: usize, S: Stored<T>>(
    f: &'f Fabric<T, N, S>,
    hand: Hand<T, S>,
    ring: usize,
    into: &mut [T],
) -> TakeAnswer<'f, T, N, S>
    requires hand { IsHandOf f.now hand }
    requires ring { ring < length (rings_of f.now) }
    ensures { (shown : List T) × (into.new ≡ shown ++ drop (length shown) into.old)
        × TriesTake T.numbers by_burst (length into.old) f.now ring hand result shown }
{
    try_take_slice(f, hand, ring, How::Burst, into)
}

/// Takes as many words as a slice has places, or none, and tries again after `Busy`, `Contended` and a settle that
/// comes too early, with pauses in between. It doesn't wait for items. At a refusal the slice is unchanged.
///
/// Errors, in the order of the tests: `BadCount` if the slice is empty or has more than `N` places, before any step;
/// `NoRoom`; `Worn`. Never `Open`, `Busy` or `Contended`. No memory; any number of steps on words.
pub fn take_bulk_slice<'f, T: Word, const N: usize, S: Stored<T>, R: Wait>(
    rt: &R,
    f: &'f Fabric<T, N, S>,
    hand: Hand<T, S>,
    ring: usize,
    into: &mut [T],
) -> TakeAnswer<'f, T, N, S>
    requires hand { IsHandOf f.now hand }
    requires ring { ring < length (rings_of f.now) }
    ensures { (shown : List T) × (into.new ≡ shown ++ drop (length shown) into.old)
        × MakesTake T.numbers by_bulk (length into.old) f.now ring hand result shown }
{
    take_front(rt, f, hand, ring, How::Bulk, into)
}

/// Takes at most as many words as a slice has places, as many as are queued, and tries again after `Busy`, `Contended`
/// and a settle that comes too early, with pauses in between. It doesn't wait for items. The words are at the front of
/// the slice afterwards, and `Moved::count` says how many; the places after them, and at a refusal all places, are
/// unchanged.
///
/// Errors, in the order of the tests: `BadCount` if the slice is empty or has more than `N` places, before any step;
/// `NoRoom`; `Worn`. Never `Open`, `Busy` or `Contended`. No memory; any number of steps on words.
pub fn take_burst_slice<'f, T: Word, const N: usize, S: Stored<T>, R: Wait>(
    rt: &R,
    f: &'f Fabric<T, N, S>,
    hand: Hand<T, S>,
    ring: usize,
    into: &mut [T],
) -> TakeAnswer<'f, T, N, S>
    requires hand { IsHandOf f.now hand }
    requires ring { ring < length (rings_of f.now) }
    ensures { (shown : List T) × (into.new ≡ shown ++ drop (length shown) into.old)
        × MakesTake T.numbers by_burst (length into.old) f.now ring hand result shown }
{
    take_front(rt, f, hand, ring, How::Burst, into)
}
