//! What was published.
use std::collections::LinkedList;

/// The values that were published, oldest first: the last one, and those before it. No value of it is made.
pub struct Past<T> {
    pub before: LinkedList<T>,
    pub latest: T,
}
