//! Pops of a stack of words, and moves in it. One word, as in most calls, is moved by itself; a longer run is copied.
ghost use Rattle.std.specs.Prelude.{◌≡◌, ◌<◌, ◌+◌, ◌-◌, ◌≤◌, ◌++◌, ◌∷◌, [], length, take, drop, reverse, IfOk};
ghost use Rattle.pool.specs.Stacks.{room_of, stacked};

use crate::stack::Stack;
use burst::Word;
use std::alloc::{AllocError, Global};

/// Copies words in reverse order. Requires: as many places.
#[inline]
fn copy_reversed<T: Word>(from: &[T], into: &mut [T])
    requires { length from.now ≡ length into.old }
    ensures { into.new ≡ reverse from.now }
{
    let n = into.len();
    for i in 0..n {
        into[i] = from[n - 1 - i];
    }
}

impl<T: Word> Stack<T> {
    /// An empty stack with so many places. Takes their memory.
    pub(crate) fn new(alloc: Global, room: usize) -> Result<Stack<T>, AllocError>
        ensures empty { IfOk result (λ s. stacked s ≡ []) }
        ensures room { IfOk result (λ s. room_of s ≡ room) }
    {
        let mut places = Vec::with_capacity(alloc, room)?;
        for _ in 0..room {
            places.push(T::blank())?;
        }
        Ok(Stack { places, count: 0 })
    }

    /// Its words, the oldest first.
    #[inline]
    pub(crate) fn as_slice(&self) -> &[T]
        ensures { result.now ≡ stacked self.now }
    {
        &self.places.as_slice()[..self.count]
    }

    /// Its words, the oldest first, in an array of their own.
    pub fn into_words(self) -> Vec<T>
        ensures { result.items ≡ stacked self }
    {
        let Stack { mut places, count } = self;
        places.truncate(count);
        places
    }

    /// Pops the newest word. Requires: there is one.
    #[inline]
    fn pop(&mut self) -> T
        requires enough { 0 < length (stacked self.old) }
        ensures room { room_of self.new ≡ room_of self.old }
        ensures left { stacked self.new ≡ take (length (stacked self.old) - 1) (stacked self.old) }
        ensures popped { result ∷ [] ≡ drop (length (stacked self.old) - 1) (stacked self.old) }
    {
        let count = self.count - 1;
        self.count = count;
        self.places[count]
    }

    /// Pops as many words as a slice has places into it, the newest first. Requires: there are as many.
    #[inline]
    pub(crate) fn pop_slice(&mut self, into: &mut [T])
        requires enough { length into.old ≤ length (stacked self.old) }
        ensures room { room_of self.new ≡ room_of self.old }
        ensures left { stacked self.new ≡ take (length (stacked self.old) - length into.old) (stacked self.old) }
        ensures popped { into.new ≡ reverse (drop (length (stacked self.old) - length into.old) (stacked self.old)) }
    {
        if into.len() == 1 {
            into[0] = self.pop();
            return;
        }
        let rest = self.count - into.len();
        copy_reversed(&self.places.as_slice()[rest..self.count], into);
        self.count = rest;
    }

    /// Moves the first words into a slice, as many as it has places: the first `k` of them reversed, the others after
    /// them in order. Requires: there are as many.
    pub(crate) fn serve(&mut self, k: usize, into: &mut [T])
        requires fits { k ≤ length into.old }
        requires enough { length into.old ≤ length (stacked self.old) }
        ensures room { room_of self.new ≡ room_of self.old }
        ensures left { stacked self.new ≡ drop (length into.old) (stacked self.old) }
        ensures served { into.new ≡ reverse (take k (stacked self.old))
            ++ take (length into.old - k) (drop k (stacked self.old)) }
    {
        let n = into.len();
        into.copy_from_slice(&self.places.as_slice()[..n]);
        into[..k].reverse();
        self.drop_first(n);
    }

    /// Removes the first `k` words, and moves the others to the front. Requires: there are as many.
    pub(crate) fn drop_first(&mut self, k: usize)
        requires enough { k ≤ length (stacked self.old) }
        ensures room { room_of self.new ≡ room_of self.old }
        ensures left { stacked self.new ≡ drop k (stacked self.old) }
    {
        let count = self.count;
        self.places.as_mut_slice().copy_within(k..count, 0);
        self.count = count - k;
    }

    /// Removes the words after the first `k`. Requires: there are as many.
    pub(crate) fn cut(&mut self, k: usize)
        requires enough { k ≤ length (stacked self.old) }
        ensures room { room_of self.new ≡ room_of self.old }
        ensures left { stacked self.new ≡ take k (stacked self.old) }
    {
        self.count = k;
    }
}
