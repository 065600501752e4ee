//! The words of a slice: they are copied into slots, and the slice isn't changed.
ghost use Rattle.std.specs.Prelude.{◌^◌, refl, ⊤};

use crate::hand::owned::Owned;
use crate::items::{Items, PutItems};
use crate::plan::Shape;
use crate::slots::Slots;
use crate::slots::slices::{clear_slots, fill_slice};
use crate::stored::{Cell, Stored};
use atomic_table::Seat;
use burst::Word;
use fabric_laws::View;

/// The words of a slice.
#[derive(Clone, Copy)]
pub struct Words<'s, T: Word> {
    pub words: &'s [T],
}

impl<'s, T: Word> Items<T> for Words<'s, T> {
    ghost items = { λ w. w.words.now };

    ghost most = { 2 ^ 64 };

    ghost left = { λ xs _. xs };

    ghost beside = { λ _ _. ⊤ };

    ghost whole = { λ _. refl };

    #[inline(always)]
    fn len(&self) -> usize {
        self.words.len()
    }

    #[inline(always)]
    fn own(&self, n: usize, owned: &mut Owned) {
        owned.own_slice(&self.words[..n]);
    }

    #[inline(always)]
    fn fill<S: Stored<T>>(
        &mut self,
        shared: &Slots<T, S>,
        shape: &Shape,
        seat: &mut Seat<Cell<T, S>, View<T>>,
        start: u64,
        k: usize,
    ) {
        fill_slice(shared, shape, seat, start, &self.words[k..]);
    }
}

impl<'s, T: Word> PutItems<T> for Words<'s, T> {
    ghost after = { λ xs _. xs };

    type Rest = Words<'s, T>;

    ghost joined = { λ _ rest. rest.words.now };

    ghost all = { λ _. refl };

    #[inline(always)]
    fn part(&mut self, k: usize) -> Words<'s, T> {
        let whole = *self;
        self.words = &whole.words[..k];
        whole
    }

    #[inline(always)]
    fn rejoin(&mut self, rest: Words<'s, T>) {
        self.words = rest.words;
    }

    #[inline(always)]
    fn disown(&self, free: bool, owned: &mut Owned) -> bool {
        owned.disown_slice(free, self.words)
    }

    #[inline(always)]
    fn refill<S: Stored<T>>(
        &mut self,
        shared: &Slots<T, S>,
        shape: &Shape,
        seat: &mut Seat<Cell<T, S>, View<T>>,
        start: u64,
        count: usize,
    ) {
        clear_slots(shared, shape, seat, start, count);
    }
}
