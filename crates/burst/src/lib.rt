//! Short lists of items that take no memory of their own, items that report which buffers they carry, and a place in
//! memory that a value is moved into and out of.
//!
//! A caller, proved in `example.rt`: it pushes two numbers, then moves them to another list in reverse order.
//!
//! ```text
//! items.push(first);
//! items.push(second);
//! items.move_tail_reversed(0, &mut turned);  // turned has second, first
//! ```
#![tactic(auto)]

mod burst;
mod cells;
mod example;
mod slot;
mod tagged;
mod word;

pub use burst::Burst;
pub use cells::Cells;
pub use slot::Slot;
pub use tagged::Tagged;
pub use word::Word;
