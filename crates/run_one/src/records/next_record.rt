//! What a reader finds next in its input.

use pcapio::Head;

/// What a reader finds next in its input.
#[derive(Clone, Copy)]
pub enum NextRecord {
    /// The head of a record, whose bytes are still to be read.
    Record(Head),
    /// A record with more bytes than a packet can take.
    Oversize,
    /// No further record; whether the file ends inside one.
    Ended(bool),
}
