//! Rings and items that threads share: multi-producer multi-consumer and head/tail-sync rings, a mode for each side, on
//! atomic words.
//!
//! `fabric` has the rings, `open` makes them, `close` ends them. `hand` is a thread's access: it can be split, joined,
//! or turned into a hand that sets buffers aside for a cache. `spans` has the calls: a start reserves a span, a settle
//! publishes its items or takes them. `items` has the lists that calls move: bursts, and the words of a slice. Below
//! them `ring` is one ring of a fabric, `words` has the four words of a ring and the atomic steps on them, `slots`
//! moves items into slots and out of them, and `stored` is how a slot holds an item: as an option, or for items that
//! are plain words as the word itself.
#![tactic(auto)]

mod close;
mod fabric;
mod faults;
mod hand;
mod items;
mod open;
mod place;
mod plan;
mod ring;
mod slots;
mod spans;
mod stored;
mod words;

pub use close::closed::Closed;
pub use fabric::Fabric;
pub use hand::cache_hand::CacheHand;
pub use hand::in_place::{HandInPlace, OpenSpan, Reserved, WholeFault};
pub use hand::split::SplitFault;
pub use hand::{Hand, PutOpen, SettleFault, StartFault, TakeOpenLent};
pub use items::front::Front;
pub use items::words::Words;
pub use items::{Items, PutItems, TakeItems};
pub use open::{OpenFault, Opened};
pub use place::{Known, Place};
pub use spans::TakeOpen;
pub use stored::{Cell, Stored};
