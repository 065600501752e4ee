//! Whole calls that borrow a list. Each costs as much as the items that it moves; a put by burst that leaves some costs
//! as much as a list by value.
ghost use Rattle.std.specs.Prelude.{◌≡◌, ◌<◌, [], length};
ghost use Rattle.fabric.specs.Hands.{IsHandOf, OnRing, rings_of, view};
ghost use Rattle.fabric.specs.Settles.{AreYours};
ghost use Rattle.ringapi.specs.Views.{by_bulk, by_burst};
ghost use Rattle.ringapi.specs.Whole.{MakesPut, MakesTake, TriesPut, TriesTake};

use crate::answers::{PutAnswer, TakeAnswer};
use crate::put::{put, put_own, try_put};
use crate::take::{take_into, try_take};
use burst::{Burst, Tagged};
use fabric::{Fabric, Hand, Stored};
use geom::How;
use std::sync::Wait;

/// A whole put of a burst, tried once.
fn try_put_from<'f, T: Tagged, const N: usize, S: Stored<T>>(
    f: &'f Fabric<T, N, S>,
    hand: Hand<T, S>,
    ring: usize,
    how: How,
    list: &mut Burst<T, N>,
) -> PutAnswer<'f, T, N, S>
    requires hand { IsHandOf f.now hand }
    requires ring { ring < length (rings_of f.now) }
    ensures { TriesPut T.numbers how f.now ring hand list.old result list.new }
{
    try_put(f, hand, ring, how, list)
}

/// A whole put of a burst that the hand may put, tried until it is finished.
fn put_own_from<'f, T: Tagged, const N: usize, S: Stored<T>, R: Wait>(
    rt: &R,
    f: &'f Fabric<T, N, S>,
    hand: Hand<T, S>,
    ring: usize,
    how: How,
    list: &mut Burst<T, N>,
) -> PutAnswer<'f, T, N, S>
    requires hand { IsHandOf f.now hand }
    requires ring { ring < length (rings_of f.now) }
    requires yours { OnRing f.now ring (λ plan. AreYours T.numbers plan (view hand) list.old) }
    ensures { MakesPut T.numbers how f.now ring hand list.old result list.new }
{
    put_own(rt, f, hand, ring, how, list)
}

/// A whole put of a burst, tried until it is finished.
fn put_from<'f, T: Tagged, const N: usize, S: Stored<T>, R: Wait>(
    rt: &R,
    f: &'f Fabric<T, N, S>,
    hand: Hand<T, S>,
    ring: usize,
    how: How,
    list: &mut Burst<T, N>,
) -> PutAnswer<'f, T, N, S>
    requires hand { IsHandOf f.now hand }
    requires ring { ring < length (rings_of f.now) }
    ensures { MakesPut T.numbers how f.now ring hand list.old result list.new }
{
    put(rt, f, hand, ring, how, list)
}

/// Tries once to put all items of a list, or none. What was not moved stays in the list, in order.
///
/// Errors, in the order of the tests: `NotYours`, before any step; `BadCount` if the list is empty; `Busy`; `NoRoom`;
/// `Worn`; `Contended`. `Open` on a multi side alone. No memory, no waiting; at most four steps on words.
pub fn try_put_bulk_from<'f, T: Tagged, const N: usize, S: Stored<T>>(
    f: &'f Fabric<T, N, S>,
    hand: Hand<T, S>,
    ring: usize,
    list: &mut Burst<T, N>,
) -> PutAnswer<'f, T, N, S>
    requires hand { IsHandOf f.now hand }
    requires ring { ring < length (rings_of f.now) }
    ensures { TriesPut T.numbers by_bulk f.now ring hand list.old result list.new }
{
    try_put_from(f, hand, ring, How::Bulk, list)
}

/// Tries once to put as many items of a list as there is room for, from its front. What was not moved stays in the
/// list, in order.
///
/// Errors, in the order of the tests: `NotYours`, before any step; `BadCount` if the list is empty; `Busy`; `NoRoom`;
/// `Worn`; `Contended`. `Open` on a multi side alone. No memory, no waiting; at most four steps on words.
pub fn try_put_burst_from<'f, T: Tagged, const N: usize, S: Stored<T>>(
    f: &'f Fabric<T, N, S>,
    hand: Hand<T, S>,
    ring: usize,
    list: &mut Burst<T, N>,
) -> PutAnswer<'f, T, N, S>
    requires hand { IsHandOf f.now hand }
    requires ring { ring < length (rings_of f.now) }
    ensures { TriesPut T.numbers by_burst f.now ring hand list.old result list.new }
{
    try_put_from(f, hand, ring, How::Burst, list)
}

/// Puts all items of a list, or none, and tries again after `Busy`, `Contended` and a settle that comes too early, with
/// pauses in between. It doesn't wait for room. What was not moved stays in the list, in order.
///
/// Errors, in the order of the tests: `NotYours`, before any step; `BadCount` if the list is empty; `NoRoom`; `Worn`.
/// Never `Open`, `Busy` or `Contended`. Allocates nothing; any number of steps on words.
pub fn put_bulk_from<'f, T: Tagged, const N: usize, S: Stored<T>, R: Wait>(
    rt: &R,
    f: &'f Fabric<T, N, S>,
    hand: Hand<T, S>,
    ring: usize,
    list: &mut Burst<T, N>,
) -> PutAnswer<'f, T, N, S>
    requires hand { IsHandOf f.now hand }
    requires ring { ring < length (rings_of f.now) }
    ensures { MakesPut T.numbers by_bulk f.now ring hand list.old result list.new }
{
    put_from(rt, f, hand, ring, How::Bulk, list)
}

/// Puts as many items of a list as there is room for, from its front, and tries again after `Busy`, `Contended` and a
/// settle that comes too early, with pauses in between. It doesn't wait for room. What was not moved stays in the list,
/// in order.
///
/// Errors, in the order of the tests: `NotYours`, before any step; `BadCount` if the list is empty; `NoRoom`; `Worn`.
/// Never `Open`, `Busy` or `Contended`. Allocates nothing; any number of steps on words.
pub fn put_burst_from<'f, T: Tagged, const N: usize, S: Stored<T>, R: Wait>(
    rt: &R,
    f: &'f Fabric<T, N, S>,
    hand: Hand<T, S>,
    ring: usize,
    list: &mut Burst<T, N>,
) -> PutAnswer<'f, T, N, S>
    requires hand { IsHandOf f.now hand }
    requires ring { ring < length (rings_of f.now) }
    ensures { MakesPut T.numbers by_burst f.now ring hand list.old result list.new }
{
    put_from(rt, f, hand, ring, How::Burst, list)
}

/// `put_bulk_from` for items that the hand may put, as a caller that got them from a pool knows: nothing is tested
/// before the start. Requires: it may put them.
///
/// Errors, in the order of the tests: `BadCount` if the list is empty; `NoRoom`; `Worn`. Never `NotYours`, `Open`,
/// `Busy` or `Contended`. Allocates nothing; any number of steps on words.
pub fn put_own_bulk_from<'f, T: Tagged, const N: usize, S: Stored<T>, R: Wait>(
    rt: &R,
    f: &'f Fabric<T, N, S>,
    hand: Hand<T, S>,
    ring: usize,
    list: &mut Burst<T, N>,
) -> PutAnswer<'f, T, N, S>
    requires hand { IsHandOf f.now hand }
    requires ring { ring < length (rings_of f.now) }
    requires yours { OnRing f.now ring (λ plan. AreYours T.numbers plan (view hand) list.old) }
    ensures { MakesPut T.numbers by_bulk f.now ring hand list.old result list.new }
{
    put_own_from(rt, f, hand, ring, How::Bulk, list)
}

/// `put_burst_from` for items that the hand may put, as a caller that got them from a pool knows: nothing is tested
/// before the start. Requires: it may put them.
///
/// Errors, in the order of the tests: `BadCount` if the list is empty; `NoRoom`; `Worn`. Never `NotYours`, `Open`,
/// `Busy` or `Contended`. Allocates nothing; any number of steps on words.
pub fn put_own_burst_from<'f, T: Tagged, const N: usize, S: Stored<T>, R: Wait>(
    rt: &R,
    f: &'f Fabric<T, N, S>,
    hand: Hand<T, S>,
    ring: usize,
    list: &mut Burst<T, N>,
) -> PutAnswer<'f, T, N, S>
    requires hand { IsHandOf f.now hand }
    requires ring { ring < length (rings_of f.now) }
    requires yours { OnRing f.now ring (λ plan. AreYours T.numbers plan (view hand) list.old) }
    ensures { MakesPut T.numbers by_burst f.now ring hand list.old result list.new }
{
    put_own_from(rt, f, hand, ring, How::Burst, list)
}

/// Tries once to take `n` items, or none, into an empty list. Requires: the list is empty.
///
/// Errors, in the order of the tests: `BadCount` if `n` is 0 or above `N`, before any step; `Busy`; `NoRoom`; `Worn`;
/// `Contended`. `Open` on a multi side alone. No memory, no waiting; at most four steps on words.
pub fn try_take_bulk_into<'f, T: Tagged, const N: usize, S: Stored<T>>(
    f: &'f Fabric<T, N, S>,
    hand: Hand<T, S>,
    ring: usize,
    n: usize,
    into: &mut Burst<T, N>,
) -> TakeAnswer<'f, T, N, S>
    requires hand { IsHandOf f.now hand }
    requires ring { ring < length (rings_of f.now) }
    requires empty { into.old ≡ [] }
    ensures { TriesTake T.numbers by_bulk n f.now ring hand result into.new }
{
    try_take(f, hand, ring, n, How::Bulk, into)
}

/// Tries once to take at most `n` items, as many as are queued, into an empty list. Requires: the list is empty.
///
/// Errors, in the order of the tests: `BadCount` if `n` is 0 or above `N`, before any step; `Busy`; `NoRoom`; `Worn`;
/// `Contended`. `Open` on a multi side alone. No memory, no waiting; at most four steps on words.
pub fn try_take_burst_into<'f, T: Tagged, const N: usize, S: Stored<T>>(
    f: &'f Fabric<T, N, S>,
    hand: Hand<T, S>,
    ring: usize,
    n: usize,
    into: &mut Burst<T, N>,
) -> TakeAnswer<'f, T, N, S>
    requires hand { IsHandOf f.now hand }
    requires ring { ring < length (rings_of f.now) }
    requires empty { into.old ≡ [] }
    ensures { TriesTake T.numbers by_burst n f.now ring hand result into.new }
{
    try_take(f, hand, ring, n, How::Burst, into)
}

/// Takes `n` items, or none, into an empty list, and tries again after `Busy`, `Contended` and a settle that comes too
/// early, with pauses in between. It doesn't wait for items. Requires: the list is empty.
///
/// Errors, in the order of the tests: `BadCount` if no item is wanted or more than `N`; `NoRoom`; `Worn`. Never `Open`,
/// `Busy` or `Contended`. Allocates nothing; any number of steps on words.
pub fn take_bulk_into<'f, T: Tagged, const N: usize, S: Stored<T>, R: Wait>(
    rt: &R,
    f: &'f Fabric<T, N, S>,
    hand: Hand<T, S>,
    ring: usize,
    n: usize,
    into: &mut Burst<T, N>,
) -> TakeAnswer<'f, T, N, S>
    requires hand { IsHandOf f.now hand }
    requires ring { ring < length (rings_of f.now) }
    requires empty { into.old ≡ [] }
    ensures { MakesTake T.numbers by_bulk n f.now ring hand result into.new }
{
    take_into(rt, f, hand, ring, n, How::Bulk, into)
}

/// Takes at most `n` items, as many as are queued, into an empty list, and tries again after `Busy`, `Contended` and a
/// settle that comes too early, with pauses in between. It doesn't wait for items. Requires: the list is empty.
///
/// Errors, in the order of the tests: `BadCount` if no item is wanted or more than `N`; `NoRoom`; `Worn`. Never `Open`,
/// `Busy` or `Contended`. Allocates nothing; any number of steps on words.
pub fn take_burst_into<'f, T: Tagged, const N: usize, S: Stored<T>, R: Wait>(
    rt: &R,
    f: &'f Fabric<T, N, S>,
    hand: Hand<T, S>,
    ring: usize,
    n: usize,
    into: &mut Burst<T, N>,
) -> TakeAnswer<'f, T, N, S>
    requires hand { IsHandOf f.now hand }
    requires ring { ring < length (rings_of f.now) }
    requires empty { into.old ≡ [] }
    ensures { MakesTake T.numbers by_burst n f.now ring hand result into.new }
{
    take_into(rt, f, hand, ring, n, How::Burst, into)
}
