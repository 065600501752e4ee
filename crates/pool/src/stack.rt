//! A stack of words over an array.
ghost use Rattle.std.specs.Prelude.{◌≤◌, length};

/// A stack of words: the first `count` places of the array have its words, the newest last. The content of the other
/// places has no meaning.
#[derive(Drop)]
pub struct Stack<T> {
    pub(crate) places: Vec<T>,
    pub(crate) count: usize,
    pub ghost fits: { count ≤ length places.items },
}
