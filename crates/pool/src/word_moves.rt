//! Pushes and pops of a stack of words that has their places.
ghost use Rattle.std.specs.Prelude.{◌≡◌, ◌+◌, ◌-◌, ◌<◌, ◌≤◌, ◌++◌, ℕ, [], length, take, drop, reverse, true, false, IfOk};
ghost use Rattle.ringcore_laws.specs.FreeRings.{AreSingle};
ghost use Rattle.ringcore_laws.specs.Sound.{occurrences_in};
ghost use Rattle.pool.specs.Places.{AreBelow};
ghost use Rattle.pool.specs.WordStacks.{buffers_in, room_in, words_in};

use crate::places::push_all_apart;
use crate::stack::Stack;
use crate::word_stack::{MAX_PLACES, WordStack};
use burst::Word;
use std::alloc::{AllocError, Global};

impl<T: Word> WordStack<T> {
    /// An empty stack with room for so many words, of a pool with so many buffers. Takes the memory of both arrays.
    pub(crate) fn new(
        alloc: Global,
        room: usize,
        buffers: usize,
    ) -> Result<WordStack<T>, AllocError>
        requires small { room ≤ MAX_PLACES }
        ensures empty { IfOk result (λ s. words_in s ≡ []) }
        ensures room { IfOk result (λ s. room_in s ≡ room) }
        ensures buffers { IfOk result (λ s. buffers_in s ≡ buffers) }
    {
        let stack = Stack::new(alloc, room)?;
        let at = Vec::from_elem(alloc, 0u16, buffers)?;
        Ok(WordStack { stack, at })
    }

    /// Its words, the oldest first, in an array of their own.
    pub fn into_words(self) -> Vec<T>
        ensures { result.items ≡ words_in self }
    {
        let WordStack { stack, .. } = self;
        stack.into_words()
    }

    /// Pushes the words of a slice, in order, if no buffer of theirs is in the stack or in two of them; otherwise the
    /// stack keeps its words. Requires: each word carries one buffer, and there is room for them.
    #[inline]
    pub(crate) fn push_apart(&mut self, items: &[T]) -> bool
        requires room { length (words_in self.old) + length items.now ≤ room_in self.old }
        requires single { AreSingle T.numbers (words_in self.old) }
        requires ones { AreSingle T.numbers items.now }
        requires below { AreBelow T.numbers (buffers_in self.old) items.now }
        ensures room { room_in self.new ≡ room_in self.old }
        ensures buffers { buffers_in self.new ≡ buffers_in self.old }
        ensures pushed { result ≡ true → words_in self.new ≡ words_in self.old ++ items.now }
        ensures back { result ≡ false → words_in self.new ≡ words_in self.old }
        ensures twice { result ≡ false
            → (b : ℕ) × (1 < occurrences_in T.numbers b (words_in self.old ++ items.now)) }
    {
        let count = self.stack.count;
        let may = push_all_apart(
            self.stack.places.as_mut_slice(),
            count,
            self.at.as_mut_slice(),
            items,
        );
        if may {
            self.stack.count = count + items.len();
        }
        may
    }

    /// Pops as many words as a slice has places into it, the newest first. Requires: there are as many.
    #[inline]
    pub(crate) fn pop_slice(&mut self, into: &mut [T])
        requires enough { length into.old ≤ length (words_in self.old) }
        ensures room { room_in self.new ≡ room_in self.old }
        ensures buffers { buffers_in self.new ≡ buffers_in self.old }
        ensures left { words_in self.new
            ≡ take (length (words_in self.old) - length into.old) (words_in self.old) }
        ensures popped { into.new
            ≡ reverse (drop (length (words_in self.old) - length into.old) (words_in self.old)) }
    {
        self.stack.pop_slice(into);
    }
}
