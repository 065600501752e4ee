//! The front of a slice: the words of a take are copied there.
ghost use Rattle.std.specs.Prelude.{◌≡◌, ◌≤◌, ◌^◌, length, take, drop, refl};

use crate::hand::owned::Owned;
use crate::items::{Items, TakeItems};
use crate::plan::Shape;
use crate::slots::Slots;
use crate::slots::slices::{fill_slice, take_out_slice};
use crate::stored::{Cell, Stored};
use atomic_table::Seat;
use burst::Word;
use fabric_laws::View;

/// The front of a slice: the first `count` places have items of a take.
#[derive(Drop)]
pub struct Front<'s, T: Word> {
    pub words: &'s mut [T],
    pub count: usize,
}

impl<'s, T: Word> Front<'s, T> {
    /// The words that it has.
    #[inline(always)]
    pub fn shown(&self) -> &[T]
        ensures { result.now ≡ take self.now.count self.now.words.now }
    {
        &self.words[..self.count.min(self.words.len())]
    }
}

impl<'s, T: Word> Items<T> for Front<'s, T> {
    ghost items = { λ f. take f.count f.words.now };

    ghost most = { 2 ^ 64 };

    ghost left = { λ xs _. xs };

    ghost beside = { λ f g. (g.words.ghost_name ≡ f.words.ghost_name)
        × (drop g.count g.words.now ≡ drop g.count f.words.now) × (g.count ≤ length g.words.now) };

    ghost whole = { λ _. refl };

    #[inline(always)]
    fn len(&self) -> usize {
        self.shown().len()
    }

    #[inline(always)]
    fn own(&self, n: usize, owned: &mut Owned) {
        owned.own_slice(&self.shown()[..n]);
    }

    #[inline(always)]
    fn fill<S: Stored<T>>(
        &mut self,
        shared: &Slots<T, S>,
        shape: &Shape,
        seat: &mut Seat<Cell<T, S>, View<T>>,
        start: u64,
        k: usize,
    ) {
        fill_slice(shared, shape, seat, start, &self.shown()[k..]);
    }
}

impl<'s, T: Word> TakeItems<T> for Front<'s, T> {
    ghost room = { λ f. length f.words.now };

    #[inline(always)]
    fn take_out<S: Stored<T>>(
        &mut self,
        shared: &Slots<T, S>,
        shape: &Shape,
        seat: &mut Seat<Cell<T, S>, View<T>>,
        start: u64,
        count: usize,
    ) {
        take_out_slice(shared, shape, seat, start, &mut self.words[0..count]);
        self.count = count;
    }
}
