//! A pool of buffers with a cache for one thread: a free ring that all threads share, and in front of it a stack of
//! buffers that this thread's hand owns, so that most gets and puts touch no word of the ring.
//!
//! `local` is the cache. It holds its buffers in a `store`: a list of items of any kind, which move through bursts
//! (`bursts`, `list_moves`), or an array of plain words, which are copied to and from slices (`words`, `word_stack`,
//! `word_moves`; `stack`, `stack_moves` and `places` are below these). These have one body for both: `cached` has the
//! gets and puts of the cache alone, `other_rings` those on another ring of the fabric, `opening` makes a cache, and
//! `queries` look at it. The calls by name: `lent` with a burst that is borrowed, `values` with one by value, `slices`
//! with a slice, `tries` with a slice and tried once. Below them, `set_aside` has the hand that sets the cached buffers
//! aside, `ring_requests` the requests of the free ring, `hands` the hand in a cache, and `sizes` the sizes of caches.
#![tactic(auto)]

mod bursts;
mod cached;
mod hands;
mod lent;
mod list_moves;
mod local;
mod opening;
mod other_rings;
mod places;
mod queries;
mod ring_requests;
mod set_aside;
mod sizes;
mod slices;
mod stack;
mod stack_moves;
mod store;
mod tries;
mod values;
mod word_moves;
mod word_opening;
mod word_stack;
mod words;

pub use local::Local;
pub use slices::LocalWords;
pub use word_opening::CacheFault;
pub use word_stack::WordStack;
