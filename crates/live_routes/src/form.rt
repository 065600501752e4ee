//! How the routes of a forwarding table are laid out.

/// How the first levels of both copies are laid out. What they answer is the same.
#[derive(Clone, Copy)]
pub enum Form {
    /// An entry for each value of an address's first bits: 4 bytes each in each copy, written when the table is opened.
    /// A lookup has a branch less than in a sparse table.
    Whole,
    /// In blocks, each of which is written when a route first covers part of it.
    Sparse,
}
