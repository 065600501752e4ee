//! Bursts: their items are moved into slots and out of them.
ghost use Rattle.std.specs.Prelude.{◌++◌, reverse, take, drop, ⊤};
ghost use Rattle.std.proofs.Common.{rules};
ghost use Rattle.std.proofs.lemmas.Grind.{common_steps};
ghost use Rattle.std.proofs.Math.Seq.{take-length};

use crate::hand::owned::Owned;
use crate::items::{Items, PutItems, TakeItems};
use crate::plan::Shape;
use crate::slots::{Slots, fill, take_out};
use crate::stored::{Cell, Stored};
use atomic_table::Seat;
use burst::{Burst, Tagged};
use fabric_laws::View;

impl<T: Tagged, const N: usize> Items<T> for Burst<T, N> {
    ghost items = { λ b. b };

    ghost most = { N };

    ghost left = { λ xs k. take k xs };

    ghost beside = { λ _ _. ⊤ };

    ghost whole = { take-length };

    #[inline]
    fn len(&self) -> usize {
        Burst::len(self)
    }

    #[inline]
    fn own(&self, n: usize, owned: &mut Owned) {
        owned.own(self, n);
    }

    #[inline]
    fn fill<S: Stored<T>>(
        &mut self,
        shared: &Slots<T, S>,
        shape: &Shape,
        seat: &mut Seat<Cell<T, S>, View<T>>,
        start: u64,
        k: usize,
    ) {
        // a copy, which isn't loaded again after each item that is written
        let shape = *shape;
        fill(shared, &shape, seat, start, k, &mut self.cells);
    }
}

impl<T: Tagged, const N: usize> PutItems<T> for Burst<T, N> {
    ghost after = { λ xs k. drop k xs };

    // in reverse order
    type Rest = Burst<T, N>;

    ghost joined = { λ xs rest. xs ++ reverse rest };

    ghost all = { Prim.search (rules, common_steps) };

    fn part(&mut self, k: usize) -> Burst<T, N> {
        let _fits = Burst::len(self);
        let mut rest = Burst::new();
        self.move_tail_reversed(k, &mut rest);
        rest
    }

    fn rejoin(&mut self, rest: Burst<T, N>) {
        let mut rest = rest;
        rest.move_tail_reversed(0, self);
    }

    #[inline]
    fn disown(&self, free: bool, owned: &mut Owned) -> bool {
        owned.disown(free, self)
    }

    #[inline]
    fn refill<S: Stored<T>>(
        &mut self,
        shared: &Slots<T, S>,
        shape: &Shape,
        seat: &mut Seat<Cell<T, S>, View<T>>,
        start: u64,
        count: usize,
    ) {
        // as in fill
        let shape = *shape;
        take_out(shared, &shape, seat, start, count, &mut self.cells);
    }
}

impl<T: Tagged, const N: usize> TakeItems<T> for Burst<T, N> {
    ghost room = { λ _. N };

    #[inline]
    fn take_out<S: Stored<T>>(
        &mut self,
        shared: &Slots<T, S>,
        shape: &Shape,
        seat: &mut Seat<Cell<T, S>, View<T>>,
        start: u64,
        count: usize,
    ) {
        // as in fill
        let shape = *shape;
        take_out(shared, &shape, seat, start, count, &mut self.cells);
    }
}
