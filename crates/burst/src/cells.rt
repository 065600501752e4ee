//! Cells for items, in the value itself: where a burst keeps its items. Emptying a list costs only the change of a
//! number, since each cell after the list holds nothing.
ghost use Rattle.std.specs.Prelude.{◌≡◌, ◌+◌, ◌-◌, ◌<◌, ◌≤◌, ◌==◌, List, [], ◌∷◌, ◌++◌, length, reverse, take, drop};
ghost use Rattle.std.specs.Prelude.{slice_set, slice_index_or, replicate, None, IfNone};
ghost use Rattle.std.specs.Option.{option_to_list};

use arrayvec::ArrayVec;
use std::marker::Model;
use std::mem::{self, ManuallyDrop};

/// Puts `x` at `index`, and returns the previous value.
#[inline]
fn replace<S, const N: usize>(row: &mut ArrayVec<S, N>, index: usize, x: S) -> S
    requires { index < length row.old.items }
    ensures value { result ≡ slice_index_or row.old.items index result }
    ensures after { row.new.items ≡ slice_set row.old.items index x }
{
    mem::replace(&mut row.as_mut_slice()[index], x)
}

/// Reverses the order of the first `n` entries.
fn turn_front<S, const N: usize>(row: &mut ArrayVec<S, N>, n: usize)
    requires { n ≤ length row.old.items }
    ensures { row.new.items ≡ reverse (take n row.old.items) ++ drop n row.old.items }
{
    row.as_mut_slice()[0..n].reverse();
}

/// A list of at most `N` cells: the first `len` of a row that is always full. Contracts see the cells of the list.
#[derive(Drop)]
pub struct Cells<T: Drop, const N: usize> {
    row: ArrayVec<Option<T>, N>,
    len: usize,
}

impl<T: Drop, const N: usize> Model for Cells<T, N> {
    ghost use Rattle.std.specs.Prelude.{List, Option, take};
    ghost use Rattle.burst.specs.Cells.{IsInFront};

    ghost Value = { List (Option T) };

    ghost view = { λ c. take c.len c.row.items };

    ghost invariant = { λ c. IsInFront N c.len c.row.items };
}

impl<T: Drop, const N: usize> Cells<T, N> {
    /// No cells.
    pub fn new() -> Cells<T, N>
        ensures { result ≡ [] }
    {
        Cells {
            row: ArrayVec::from_array_in((), Default::default()),
            len: 0,
        }
    }

    /// The number of cells, at most `N`.
    #[inline]
    pub fn len(&self) -> usize
        ensures value { result ≡ length self.now }
        ensures fits { result ≤ N }
    {
        self.len
    }

    /// The cells.
    #[inline]
    pub fn as_slice(&self) -> &[Option<T>]
        ensures { result.now ≡ self.now }
    {
        &self.row.as_slice()[..self.len]
    }

    /// Puts a cell at index `i`, and returns the previous one.
    #[inline]
    pub fn replace(&mut self, i: usize, cell: Option<T>) -> Option<T>
        requires { i < length self.old }
        ensures value { result ≡ slice_index_or self.old i result }
        ensures after { self.new ≡ slice_set self.old i cell }
    {
        replace(&mut self.row, i, cell)
    }

    /// Appends `n` cells that hold nothing, by changing only the length. Requires: there is room for them.
    #[inline]
    pub fn grow_empty(&mut self, n: usize)
        requires { length self.old + n ≤ N }
        ensures { self.new ≡ self.old ++ replicate n None }
    {
        self.len += n;
    }

    /// Keeps the first `n` cells, by changing only the length. Requires: the others hold nothing.
    #[inline]
    pub fn truncate_empty(&mut self, n: usize)
        requires fits { n ≤ length self.old }
        requires blank { drop n self.old ≡ replicate (length self.old - n) None }
        ensures { self.new ≡ take n self.old }
    {
        self.len = n;
    }

    /// Appends a cell. Requires: the list isn't full.
    #[inline]
    pub fn push(&mut self, cell: Option<T>)
        requires { length self.old < N }
        ensures { self.new ≡ self.old ++ cell ∷ [] }
    {
        let found = replace(&mut self.row, self.len, cell);
        // the cell held nothing, so there is nothing to drop
        let _nothing = ManuallyDrop::new(found);
        self.len += 1;
    }

    /// Removes the last cell, if there is one.
    #[inline]
    pub fn pop(&mut self) -> Option<Option<T>>
        ensures items { self.old ≡ self.new ++ option_to_list result }
        ensures empty { IfNone result (self.new ≡ []) }
    {
        if self.len == 0 {
            return None;
        }
        let last = self.len - 1;
        self.len = last;
        Some(replace(&mut self.row, last, None))
    }

    /// Moves all cells of another list to the end of this one, in order. Requires: there is room for them.
    #[inline]
    pub fn append(&mut self, other: &mut Cells<T, N>)
        requires room { length self.old + length other.old ≤ N }
        ensures moved { self.new ≡ self.old ++ other.old }
        ensures left { other.new ≡ [] }
    {
        let before = self.len();
        let many = other.len();
        self.grow_empty(many);
        for i in 0..many {
            let cell = other.replace(i, None);
            // the cell held nothing, so there is nothing to drop
            let _nothing = ManuallyDrop::new(self.replace(before + i, cell));
        }
        other.truncate_empty(0);
    }

    /// Moves the cells after the first `k` to the end of `to`, in reverse order. Requires: there are at least `k`
    /// cells, and there is room.
    #[inline]
    pub fn move_tail_reversed(&mut self, k: usize, to: &mut Cells<T, N>)
        requires fits { k ≤ length self.old }
        requires room { length to.old + (length self.old - k) ≤ N }
        ensures left { self.new ≡ take k self.old }
        ensures moved { to.new ≡ to.old ++ reverse (drop k self.old) }
    {
        let before = to.len();
        let all = self.len();
        to.grow_empty(all - k);
        for i in 0..all - k {
            let cell = self.replace(all - 1 - i, None);
            // the cell held nothing, so there is nothing to drop
            let _nothing = ManuallyDrop::new(to.replace(before + i, cell));
        }
        self.truncate_empty(k);
    }

    /// Reverses the order of the cells.
    pub fn reverse(&mut self)
        ensures { self.new ≡ reverse self.old }
    {
        turn_front(&mut self.row, self.len);
    }
}
