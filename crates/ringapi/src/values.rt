//! Whole calls with a list by value: each moves all `N` places of it. The calls that borrow a list don't.
ghost use Rattle.std.specs.Prelude.{◌<◌, length};
ghost use Rattle.fabric.specs.Hands.{IsHandOf, rings_of};
ghost use Rattle.ringapi.specs.Views.{by_bulk, by_burst};
ghost use Rattle.ringapi.specs.Whole.{MakesPut, MakesTake, TriesPut, TriesTake};

use crate::answers::{PutAnswer, TakeAnswer};
use crate::lent::{
    put_bulk_from, put_burst_from, take_bulk_into, take_burst_into, try_put_bulk_from,
    try_put_burst_from, try_take_bulk_into, try_take_burst_into,
};
use burst::{Burst, Tagged};
use fabric::{Fabric, Hand, Stored};
use std::sync::Wait;

/// `try_put_bulk_from` with a list by value; what was not moved comes back with the answer.
pub fn try_put_bulk<'f, T: Tagged, const N: usize, S: Stored<T>>(
    f: &'f Fabric<T, N, S>,
    hand: Hand<T, S>,
    ring: usize,
    items: Burst<T, N>,
) -> (PutAnswer<'f, T, N, S>, Burst<T, N>)
    requires hand { IsHandOf f.now hand }
    requires ring { ring < length (rings_of f.now) }
    ensures { TriesPut T.numbers by_bulk f.now ring hand items result.0 result.1 }
{
    let mut list = items;
    let answer = try_put_bulk_from(f, hand, ring, &mut list);
    (answer, list)
}

/// `try_put_burst_from` with a list by value; what was not moved comes back with the answer.
pub fn try_put_burst<'f, T: Tagged, const N: usize, S: Stored<T>>(
    f: &'f Fabric<T, N, S>,
    hand: Hand<T, S>,
    ring: usize,
    items: Burst<T, N>,
) -> (PutAnswer<'f, T, N, S>, Burst<T, N>)
    requires hand { IsHandOf f.now hand }
    requires ring { ring < length (rings_of f.now) }
    ensures { TriesPut T.numbers by_burst f.now ring hand items result.0 result.1 }
{
    let mut list = items;
    let answer = try_put_burst_from(f, hand, ring, &mut list);
    (answer, list)
}

/// `put_bulk_from` with a list by value; what was not moved comes back with the answer.
pub fn put_bulk<'f, T: Tagged, const N: usize, S: Stored<T>, R: Wait>(
    rt: &R,
    f: &'f Fabric<T, N, S>,
    hand: Hand<T, S>,
    ring: usize,
    items: Burst<T, N>,
) -> (PutAnswer<'f, T, N, S>, Burst<T, N>)
    requires hand { IsHandOf f.now hand }
    requires ring { ring < length (rings_of f.now) }
    ensures { MakesPut T.numbers by_bulk f.now ring hand items result.0 result.1 }
{
    let mut list = items;
    let answer = put_bulk_from(rt, f, hand, ring, &mut list);
    (answer, list)
}

/// `put_burst_from` with a list by value; what was not moved comes back with the answer.
pub fn put_burst<'f, T: Tagged, const N: usize, S: Stored<T>, R: Wait>(
    rt: &R,
    f: &'f Fabric<T, N, S>,
    hand: Hand<T, S>,
    ring: usize,
    items: Burst<T, N>,
) -> (PutAnswer<'f, T, N, S>, Burst<T, N>)
    requires hand { IsHandOf f.now hand }
    requires ring { ring < length (rings_of f.now) }
    ensures { MakesPut T.numbers by_burst f.now ring hand items result.0 result.1 }
{
    let mut list = items;
    let answer = put_burst_from(rt, f, hand, ring, &mut list);
    (answer, list)
}

/// `try_take_bulk_into` with a list of its own, which is returned with the answer.
pub fn try_take_bulk<'f, T: Tagged, const N: usize, S: Stored<T>>(
    f: &'f Fabric<T, N, S>,
    hand: Hand<T, S>,
    ring: usize,
    n: usize,
) -> (TakeAnswer<'f, T, N, S>, Burst<T, N>)
    requires hand { IsHandOf f.now hand }
    requires ring { ring < length (rings_of f.now) }
    ensures { TriesTake T.numbers by_bulk n f.now ring hand result.0 result.1 }
{
    let mut items = Burst::new();
    let answer = try_take_bulk_into(f, hand, ring, n, &mut items);
    (answer, items)
}

/// `try_take_burst_into` with a list of its own, which is returned with the answer.
pub fn try_take_burst<'f, T: Tagged, const N: usize, S: Stored<T>>(
    f: &'f Fabric<T, N, S>,
    hand: Hand<T, S>,
    ring: usize,
    n: usize,
) -> (TakeAnswer<'f, T, N, S>, Burst<T, N>)
    requires hand { IsHandOf f.now hand }
    requires ring { ring < length (rings_of f.now) }
    ensures { TriesTake T.numbers by_burst n f.now ring hand result.0 result.1 }
{
    let mut items = Burst::new();
    let answer = try_take_burst_into(f, hand, ring, n, &mut items);
    (answer, items)
}

/// `take_bulk_into` with a list of its own, which is returned with the answer.
pub fn take_bulk<'f, T: Tagged, const N: usize, S: Stored<T>, R: Wait>(
    rt: &R,
    f: &'f Fabric<T, N, S>,
    hand: Hand<T, S>,
    ring: usize,
    n: usize,
) -> (TakeAnswer<'f, T, N, S>, Burst<T, N>)
    requires hand { IsHandOf f.now hand }
    requires ring { ring < length (rings_of f.now) }
    ensures { MakesTake T.numbers by_bulk n f.now ring hand result.0 result.1 }
{
    let mut items = Burst::new();
    let answer = take_bulk_into(rt, f, hand, ring, n, &mut items);
    (answer, items)
}

/// `take_burst_into` with a list of its own, which is returned with the answer.
pub fn take_burst<'f, T: Tagged, const N: usize, S: Stored<T>, R: Wait>(
    rt: &R,
    f: &'f Fabric<T, N, S>,
    hand: Hand<T, S>,
    ring: usize,
    n: usize,
) -> (TakeAnswer<'f, T, N, S>, Burst<T, N>)
    requires hand { IsHandOf f.now hand }
    requires ring { ring < length (rings_of f.now) }
    ensures { MakesTake T.numbers by_burst n f.now ring hand result.0 result.1 }
{
    let mut items = Burst::new();
    let answer = take_burst_into(rt, f, hand, ring, n, &mut items);
    (answer, items)
}
