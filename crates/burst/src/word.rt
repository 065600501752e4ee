//! Items that are plain words.
use crate::tagged::Tagged;

/// An item that is a plain word, so its bits may be read twice without harm: a ring holds it as it is, and a call reads
/// it from a slice and writes it to one.
pub trait Word: Tagged + Copy {
    /// Any value of the type: what a slot without an item contains.
    fn blank() -> Self;
}
