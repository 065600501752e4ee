//! What a hand knows. No value of this type is ever made: it is for the proofs alone.

use geom::RingPlan;
use ringcore_laws::{Observed, Party};
use std::collections::LinkedList;

/// The view of a hand: a thread's share of a fabric. Only the hand's own steps change it.
pub struct View<T> {
    /// The spans it settled, with their items, the one it has open, and the buffers it was given.
    pub party: Party<T>,
    /// The items at the positions of its open take span.
    pub shown: LinkedList<T>,
    /// What its last look found, and its last question for room since then.
    pub observed: Option<Observed>,
    /// The word that refused the last start: what its look found if the side was busy, or what its exchange found if it
    /// lost.
    pub lost: Option<u64>,
    /// How many steps on words the hand has made.
    pub steps: u64,
    /// How many loads it has made besides: one for each join, and one each time it learned what it has to know about
    /// itself. A start or a settle makes none.
    pub loads: u64,
    /// Its parts of the whole. A hand that was joined to another has none left.
    pub parts: u64,
    /// The rings of its fabric, and the total number of buffers.
    pub plans: LinkedList<RingPlan>,
    pub pool: u64,
}
