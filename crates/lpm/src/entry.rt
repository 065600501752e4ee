//! The content of a first-level entry.

/// An entry of the first level.
#[derive(Clone, Copy, Debug, PartialEq, Eq)]
pub enum Entry {
    /// The result is in the group with this number, since a route deeper than the first level has these first bits.
    Group(u32),
    /// This hop is the result for every address of the entry.
    Hop(u32),
    /// No route covers any address of the entry.
    None,
}
