//! A stack of words that has a place for each buffer, by which it finds out whether it has a buffer.
ghost use Rattle.std.specs.Prelude.{◌≤◌};
ghost use Rattle.pool.specs.Places.{ArePlaced};
ghost use Rattle.pool.specs.Stacks.{room_of, stacked};

use crate::stack::Stack;
use burst::Tagged;

/// The most words that it has room for: a place is two bytes.
pub(crate) const MAX_PLACES: usize = 65_536;

/// A stack of words, and for each buffer of the pool the place where it lay when it was pushed last. So a buffer is in
/// the stack exactly if the word at its place carries it, and a pop leaves the places as they are.
#[derive(Drop)]
pub struct WordStack<T: Tagged> {
    pub(crate) stack: Stack<T>,
    pub(crate) at: Vec<u16>,
    pub ghost small: { room_of stack ≤ 65536 },
    pub ghost placed: { ArePlaced T.numbers at.items (stacked stack) },
}
