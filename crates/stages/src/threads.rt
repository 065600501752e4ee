//! What the threads of a run do: the `reader` reads records into free segments and puts packets on a ring, each
//! `worker` takes them from there, judges them and puts them on another, and the `sink` takes them from that one,
//! writes them in the order of the input, and gives their segments back.
//!
//! `rings` has the rings, `item` what is on them, `ring_access` a thread's access to them, `ring_put` the puts of a
//! list as room becomes available, `segments` links segments and gives them back, `unused` has those that no packet
//! has used yet, `idle` is how a thread waits, `reader_outcome` what the reader leaves, and `gate` lets a caller watch
//! packets while they are judged.

pub(crate) mod gate;
pub(crate) mod idle;
pub(crate) mod item;
pub(crate) mod reader;
pub(crate) mod reader_outcome;
pub(crate) mod ring_access;
pub(crate) mod ring_put;
pub(crate) mod rings;
pub(crate) mod segments;
pub(crate) mod sink;
pub(crate) mod unused;
pub(crate) mod worker;
