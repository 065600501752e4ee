//! What an actor of the machine, or a thread's hand, is to the rings. No value of these types is ever made: they are
//! for the proofs alone.

use crate::protocol::Span;
use geom::Side;
use std::collections::LinkedList;

/// A settled span: its items are at `start`, `start + 1` and so on.
pub struct Settled<I> {
    pub ring: usize,
    pub side: Side,
    pub start: u64,
    pub items: LinkedList<I>,
}

/// A party to the rings: the buffers it was given, the spans it has settled, and its open span, at most one.
pub struct Party<I> {
    pub given: LinkedList<u64>,
    pub settled: LinkedList<Settled<I>>,
    pub span: Option<Span>,
}
