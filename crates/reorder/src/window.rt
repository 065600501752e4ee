//! The window, and its six calls.
ghost use Rattle.std.specs.Prelude.{◌≡◌, ◌+◌, ◌<◌, ◌≤◌, ◌↔◌, IsTrue, IfOk, IsOk, OnOk, IfErr, OnErr, IsErrOf, OnSome, IfNone, false};
ghost use Rattle.std.specs.FinMap as map;
ghost use Rattle.reorder.specs.Waiting.{empty_window, end_of, with_number, after_next, slid_to, IsFree, IsWindow};

use crate::fault::InsertFault;
use crate::places::{empty_row, first_held, place_of, put};
use std::alloc::{AllocError, Global};
use std::marker::Model;

/// The maximum size of a window, in numbers.
pub const MAX_SIZE: usize = 65_536;

/// Items that wait for their turn, each with its sequence number: from `next()` on, and less than the window's size
/// above it. A window may be dropped if its items may.
#[derive(Drop)]
pub struct Window<T> {
    // The item with number n is at place `n % places.len()`.
    places: Vec<Option<T>>,
    // The number whose turn it is.
    next: u64,
    // The place of `next`, `next % places.len()`, so that no call but `slide` divides.
    head: usize,
}

impl<T> Model for Window<T> {
    ghost use Rattle.reorder.specs.Waiting.{Waiting, waiting_code};
    ghost use Rattle.reorder.specs.Places.{waiting_in, IsRowOf};

    ghost Value = { Waiting T };

    ghost coded = { waiting_code T.code };

    ghost view = { λ w. waiting_in w.places.items w.next };

    ghost invariant = { λ w. IsRowOf w.places.items w.head w.next };
}

impl<T> Window<T> {
    /// A window of `size` numbers, from 1 to 65,536, that waits for number 0. Takes memory for its places; no other
    /// call takes any.
    pub fn new(alloc: Global, size: usize) -> Result<Self, AllocError>
        requires nonzero { 0 < size }
        requires small { size ≤ MAX_SIZE }
        ensures { IfOk result (λ window. window ≡ empty_window size) }
    {
        Ok(Window {
            places: empty_row(alloc, size)?,
            next: 0,
            head: 0,
        })
    }

    /// The number whose turn it is. Every item in the window has a number from this one on, and below the window's end.
    pub fn next(&self) -> u64
        ensures next { result ≡ self.now.next }
        ensures window { IsWindow self.now }
    {
        self.next
    }

    /// Inserts an item with its number. Errors, with the item handed back: 1 Late if the number is below the next one,
    /// 2 Early if it is at least the window's size above it, or 2^64 - 1, and 3 Double if an item with this number is
    /// waiting. An error changes nothing. Looks at one place, and takes no memory.
    pub fn insert(&mut self, seq: u64, item: T) -> Result<(), (T, InsertFault)>
        ensures accepted { IsOk result ↔ IsFree self.old seq }
        ensures late { IsErrOf result (item, InsertFault.Late) ↔ (seq < self.old.next) }
        ensures early { IsErrOf result (item, InsertFault.Early) ↔ (end_of self.old ≤ seq) }
        ensures double { IsErrOf result (item, InsertFault.Double) ↔ IsTrue (map.contains_key self.old.held seq) }

        ensures inserted { OnOk result (self.new ≡ with_number self.old seq item) }
        ensures returned { IfErr result (λ refusal. refusal.0 ≡ item) }
        ensures unchanged { OnErr result (self.new ≡ self.old) }
    {
        if seq < self.next {
            return Err((item, InsertFault::Late));
        }
        let ahead = seq - self.next;
        if ahead >= self.places.len() as u64 || seq == u64::MAX {
            return Err((item, InsertFault::Early));
        }
        let place = place_of(self.head, ahead as usize, self.places.len());
        if self.places[place].is_some() {
            return Err((item, InsertFault::Double));
        }
        put(&mut self.places, place, item);
        Ok(())
    }

    /// Takes the item whose turn it is, and moves on to the following number. If that item hasn't arrived, returns
    /// `None` and changes nothing. Looks at one place, and takes no memory.
    pub fn pop(&mut self) -> Option<T>
        ensures item { result ≡ map.get self.old.held self.old.next }
        ensures given { OnSome result (self.new ≡ after_next self.old) }
        ensures fewer { OnSome result (map.len self.new.held < map.len self.old.held) }
        ensures unchanged { IfNone result (self.new ≡ self.old) }
    {
        let item = self.places[self.head].take()?;
        self.next += 1;
        self.head = place_of(self.head, 1, self.places.len());
        Some(item)
    }

    /// Lets the item with this number pass if it is its turn and no item waits under the number: the turn moves to the
    /// following number, as after `insert` and `pop`, and the item isn't moved. Otherwise, and for 2^64 - 1, returns
    /// false and changes nothing. Looks at one place, and takes no memory.
    pub fn pass(&mut self, seq: u64) -> bool
        ensures passed { IsTrue result ↔ ((seq ≡ self.old.next) × IsFree self.old seq) }
        ensures turn { IsTrue result → self.new ≡ record self.old { next = self.old.next + 1 } }
        ensures same { IsTrue result → (item : T) → self.new ≡ after_next (with_number self.old seq item) }
        ensures unchanged { result ≡ false → self.new ≡ self.old }
    {
        let turn = self.next;
        if seq == u64::MAX || seq != turn {
            return false;
        }
        if self.places[self.head].is_some() {
            return false;
        }
        let size = self.places.len();
        self.head = place_of(self.head, 1, size);
        self.next = turn + 1;
        true
    }

    /// Stops waiting for numbers below `seq`: the turn moves to `seq`, or to the lowest number of an item in the
    /// window, if that is lower. It never goes back, and no item is lost. Returns the number whose turn it is then.
    /// Looks at each place at most once, and takes no memory.
    pub fn slide(&mut self, seq: u64) -> u64
        ensures turn { result ≡ slid_to self.old seq }
        ensures kept { self.new ≡ record self.old { next = result } }
    {
        if seq <= self.next {
            return self.next;
        }
        let next = first_held(&self.places, self.next, seq);
        self.head = (next % self.places.len() as u64) as usize;
        self.next = next;
        next
    }
}
