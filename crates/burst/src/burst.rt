//! A short list of items that takes no memory of its own: what goes to a ring, or comes from one, in one call.
ghost use Rattle.std.specs.Prelude.{◌≡◌, ◌+◌, ◌-◌, ◌<◌, ◌≤◌, ◌==◌, ◌↔◌, List, [], ◌∷◌, ◌++◌, length, reverse, take, drop};
ghost use Rattle.std.specs.Prelude.{slice_get, IsSome, IfNone};
ghost use Rattle.std.specs.Option.{option_copied, option_to_list};

use crate::cells::Cells;
use std::marker::Model;

/// A list of at most `N` items, kept in the value itself: every cell of it holds an item.
///
/// It is as large as `N` optional items, 16 bytes each if an item is a box, so pass it by `&mut` where you can.
#[derive(Drop)]
pub struct Burst<T: Drop, const N: usize> {
    pub cells: Cells<T, N>,
}

impl<T: Drop, const N: usize> Model for Burst<T, N> {
    ghost use Rattle.std.specs.Prelude.{List, ◌≡◌, map, Some};
    ghost use Rattle.burst.specs.Items.{somes};

    ghost Value = { List T };

    ghost view = { λ b. somes b.cells };

    ghost invariant = { λ b. b.cells ≡ map Some (somes b.cells) };
}

impl<T: Drop, const N: usize> Burst<T, N> {
    /// An empty list.
    pub fn new() -> Burst<T, N>
        ensures { result ≡ [] }
    {
        Burst {
            cells: Cells::new(),
        }
    }

    /// The number of items, at most `N`.
    #[inline]
    pub fn len(&self) -> usize
        ensures value { result ≡ length self.now }
        ensures fits { result ≤ N }
    {
        self.cells.len()
    }

    /// Whether there is no item.
    #[inline]
    pub fn is_empty(&self) -> bool
        ensures { result ≡ (length self.now == 0) }
    {
        self.len() == 0
    }

    /// Whether there is no room for another item.
    #[inline]
    pub fn is_full(&self) -> bool
        ensures value { result ≡ (length self.now == N) }
        ensures fits { length self.now ≤ N }
    {
        self.len() == N
    }

    /// The item at index `i`, counted from 0, if there is one.
    #[inline]
    pub fn get(&self, i: usize) -> Option<&T>
        ensures { option_copied result ≡ slice_get self.now i }
    {
        match self.cells.as_slice().get(i) {
            Some(cell) => cell.as_ref(),
            None => None,
        }
    }

    /// `get` for an index known to be in the list, without checking its length.
    #[inline]
    pub fn get_known(&self, i: usize) -> Option<&T>
        requires { i < length self.now }
        ensures { option_copied result ≡ slice_get self.now i }
    {
        self.cells.as_slice()[i].as_ref()
    }

    /// Appends an item. Requires: the list isn't full.
    #[inline]
    pub fn push(&mut self, item: T)
        requires { length self.old < N }
        ensures { self.new ≡ self.old ++ item ∷ [] }
    {
        self.cells.push(Some(item));
    }

    /// Removes the last item, if there is one.
    #[inline]
    pub fn pop(&mut self) -> Option<T>
        ensures items { self.old ≡ self.new ++ option_to_list result }
        ensures variant { IsSome result ↔ (0 < length self.old) }
        ensures empty { IfNone result (self.new ≡ []) }
    {
        self.cells.pop()?
    }

    /// Removes the first item, if there is one, and moves the others up: the cost grows with the length of the list. To
    /// empty a list from its front, `reverse` it once and `pop` its items.
    pub fn pop_front(&mut self) -> Option<T>
        ensures items { self.old ≡ option_to_list result ++ self.new }
        ensures variant { IsSome result ↔ (0 < length self.old) }
        ensures empty { IfNone result (self.new ≡ []) }
    {
        self.reverse();
        let item = self.pop();
        self.reverse();
        item
    }

    /// Moves all items of another list to the end of this one, in order. Requires: there is room for them.
    #[inline]
    pub fn append(&mut self, other: &mut Burst<T, N>)
        requires room { length self.old + length other.old ≤ N }
        ensures moved { self.new ≡ self.old ++ other.old }
        ensures left { other.new ≡ [] }
    {
        self.cells.append(&mut other.cells);
    }

    /// Moves the items after the first `k` to the end of `to`, in reverse order. Requires: there are at least `k`
    /// items, and there is room.
    #[inline]
    pub fn move_tail_reversed(&mut self, k: usize, to: &mut Burst<T, N>)
        requires fits { k ≤ length self.old }
        requires room { length to.old + (length self.old - k) ≤ N }
        ensures left { self.new ≡ take k self.old }
        ensures moved { to.new ≡ to.old ++ reverse (drop k self.old) }
    {
        self.cells.move_tail_reversed(k, &mut to.cells);
    }

    /// Reverses the order of the items.
    pub fn reverse(&mut self)
        ensures { self.new ≡ reverse self.old }
    {
        self.cells.reverse();
    }

    /// Drops every item.
    pub fn clear(&mut self)
        ensures { self.new ≡ [] }
    {
        for _i in 0..self.len() {
            self.pop();
        }
    }
}
