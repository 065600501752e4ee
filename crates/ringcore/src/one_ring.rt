//! The ring for one thread: a bounded queue, whose contracts see its capacity and the list of its items, oldest first.

ghost use Rattle.std.specs.Prelude.{◌≡◌, ◌+◌, ◌-◌, ◌<◌, ◌≤◌, [], ◌∷◌, ◌++◌, length, take, drop, Option, Some, IfOk, OnErr, IsSome, vec_len, vec_capacity};
ghost use Rattle.std.specs.Option.{option_to_list};
ghost use Rattle.geom.specs.Plan.{granted};

use geom::{Geometry, How};
use std::alloc::{AllocError, Global};
use std::collections::VecDeque;
use std::marker::Model;

/// What a put or a take has moved.
#[derive(Clone, Copy, Debug, PartialEq, Eq)]
pub struct Moved {
    /// How many items were moved.
    pub count: u64,
    /// After a put how many more would fit, after a take how many are left.
    pub left: u64,
}

/// A bounded queue of at most `geometry.capacity()` items, in `geometry.size()` slots, all made by `new`.
#[derive(Drop)]
pub struct OneRing<T> {
    geometry: Geometry,
    /// The queued items, one in each slot from `front` on, wrapping at the end; every other slot is `None`.
    slots: Vec<Option<T>>,
    /// The slot of the oldest item.
    front: u64,
    /// How many items are queued.
    count: u64,
}

impl<T> Model for OneRing<T> {
    ghost use Rattle.ringcore.specs.Fifo.{Fifo, IsLaidOut, queued};

    ghost Value = { Fifo T };

    ghost view = { λ r. record { capacity = r.geometry.capacity; items = queued r.front r.slots.items } };

    ghost invariant = { λ r. IsLaidOut r.geometry r.slots.items r.front r.count };
}

impl<T: Drop> OneRing<T> {
    /// An empty ring. Takes the memory for its slots, and none after that. Errors: out of memory, and nothing else.
    pub fn new(alloc: Global, geometry: Geometry) -> Result<OneRing<T>, AllocError>
        ensures { IfOk result (λ ring. ring ≡ record { capacity = geometry.capacity; items = [] }) }
    {
        let size = geometry.size() as usize;
        let mut slots = Vec::with_capacity(alloc, size)?;
        for _ in 0..size {
            slots.push(None)?;
        }
        Ok(OneRing {
            geometry,
            slots,
            front: 0,
            count: 0,
        })
    }

    /// How many items are queued.
    pub fn count(&self) -> u64
        ensures items { result ≡ length self.now.items }
        ensures within { length self.now.items ≤ self.now.capacity }
    {
        self.count
    }

    /// How many more items fit.
    pub fn free(&self) -> u64
        ensures { result + length self.now.items ≡ self.now.capacity }
    {
        self.geometry.capacity() - self.count
    }

    /// Moves items from the front of `items` to the end of the ring: bulk moves all of them or none, burst as many as
    /// fit. Takes no memory.
    pub fn put(&mut self, how: How, items: &mut VecDeque<T>) -> Moved
        ensures count { result.count
            ≡ granted how (length items.old.items) (self.old.capacity - length self.old.items) }
        ensures queued { self.new ≡ record self.old { items = self.old.items ++ take result.count items.old.items } }
        ensures rest { items.new.items ≡ drop result.count items.old.items }
        ensures left { result.left + length self.new.items ≡ self.new.capacity }
    {
        let count = how.granted(items.len() as u64, self.free());
        self.put_first(count, items);
        Moved {
            count,
            left: self.free(),
        }
    }

    /// Moves items from the front of the ring to the end of `out`: bulk moves n of them or none, burst as many as there
    /// are, up to n. Errors: only if there is no room in `out`; ring and list are then unchanged.
    pub fn take(&mut self, how: How, n: u64, out: &mut Vec<T>) -> Result<Moved, AllocError>
        ensures count { IfOk result (λ moved. moved.count ≡ granted how n (length self.old.items)) }
        ensures given { IfOk result (λ moved. out.new.items ≡ out.old.items ++ take moved.count self.old.items) }
        ensures queued { IfOk result (λ moved. self.new ≡ record self.old { items = drop moved.count self.old.items }) }
        ensures left { IfOk result (λ moved. moved.left ≡ length self.new.items) }
        ensures ring_kept { OnErr result (self.new ≡ self.old) }
        ensures out_kept { OnErr result (out.new.items ≡ out.old.items) }
    {
        let count = how.granted(n, self.count());
        out.reserve(count as usize)?;
        self.take_first(count, out);
        Ok(Moved {
            count,
            left: self.count(),
        })
    }

    /// Queues one item.
    fn push(&mut self, item: T)
        requires { length self.old.items < self.old.capacity }
        ensures { self.new ≡ record self.old { items = self.old.items ++ item ∷ [] } }
    {
        let slot = self.geometry.slot(self.front + self.count) as usize;
        self.slots[slot] = Some(item);
        self.count += 1;
    }

    /// Removes and returns the oldest item.
    fn pop(&mut self) -> Option<T>
        requires { 0 < length self.old.items }
        ensures item { self.old.items ≡ option_to_list result ++ self.new.items }
        ensures present { IsSome result }
        ensures capacity { self.new.capacity ≡ self.old.capacity }
    {
        let item = self.slots[self.front as usize].take();
        self.front = self.geometry.slot(self.front + 1);
        self.count -= 1;
        item
    }

    /// Queues the first `count` items of a list.
    fn put_first(&mut self, count: u64, items: &mut VecDeque<T>)
        requires fits { length self.old.items + count ≤ self.old.capacity }
        requires there { count ≤ length items.old.items }
        ensures queued { self.new ≡ record self.old { items = self.old.items ++ take count items.old.items } }
        ensures rest { items.new.items ≡ drop count items.old.items }
    {
        for _ in 0..count {
            if let Some(item) = items.pop_front() {
                self.push(item);
            }
        }
    }

    /// Moves the `count` oldest items to a list that has room for them.
    fn take_first(&mut self, count: u64, out: &mut Vec<T>)
        requires there { count ≤ length self.old.items }
        requires room { vec_len out.old + count ≤ vec_capacity out.old }
        ensures queued { self.new ≡ record self.old { items = drop count self.old.items } }
        ensures given { out.new.items ≡ out.old.items ++ take count self.old.items }
    {
        for _ in 0..count {
            if let Some(item) = self.pop() {
                out.push_reserved(item);
            }
        }
    }
}
