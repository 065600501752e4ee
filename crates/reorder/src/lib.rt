//! A reorder window: accepts items in any order of their sequence numbers, and releases them in sequence (DPDK
//! Programmer's Guide, "Reorder Library"). `insert`, `pop`, `pass` and `next` look at one place, `slide` at each place
//! at most once, and no call but `new` takes memory.
//!
//! Contracts see a window as a finite map from numbers to items and the number whose turn is next. Only this crate
//! knows that number n is at place `n mod size`.
//!
//! A caller, proved in callers (`in_turn`): two items that arrive out of order leave in order, and neither
//! `unwrap` can fail.
//!
//! ```text
//! let mut window = Window::new(alloc, 2)?;
//! window.insert(1, one).unwrap();
//! window.insert(0, zero).unwrap();
//! let first = window.pop();   // Some(zero)
//! let second = window.pop();  // Some(one)
//! ```
#![tactic(auto)]

mod fault;
mod places;
mod window;

pub use fault::InsertFault;
pub use window::{MAX_SIZE, Window};
