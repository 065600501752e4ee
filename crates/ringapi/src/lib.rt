//! Whole calls on the rings of a fabric: a start and a settle in one, tried once or until they are done; and peeks,
//! which look at items before they are taken.
//!
//! `put` and `take` have the bodies, for any list of items, by bulk or burst. The calls by name are over them: `lent`
//! for bursts, `values` for bursts by value, `slices` for the words of a slice. `port` is a hand with its rings in one
//! value, and `port_calls` has its calls, which require nothing; `ends` are ports that stay at one side of one ring,
//! and `end_calls` has theirs.
#![tactic(auto)]

mod answers;
mod end_calls;
mod ends;
mod keyed_lock;
mod lent;
mod pauses;
mod peek;
mod peek_slices;
mod port;
mod port_calls;
mod port_fault;
mod put;
mod slices;
mod spares;
mod take;
mod unfinished;
mod values;

pub use answers::{Moved, PutAnswer, Refusal, TakeAnswer};
pub use ends::{Consumer, Producer};
pub use keyed_lock::{Keeps, KeyedLock, Taken, Ticket};
pub use lent::{
    put_bulk_from, put_burst_from, put_own_bulk_from, put_own_burst_from, take_bulk_into,
    take_burst_into, try_put_bulk_from, try_put_burst_from, try_take_bulk_into,
    try_take_burst_into,
};
pub use peek::{PeekPut, PeekTake, PeekTakeLent, peek_put, peek_take, peek_take_into};
pub use peek_slices::peek_take_slice;
pub use port::Port;
pub use port_fault::PortFault;
pub use put::{put_own, try_put_own};
pub use slices::{
    put_bulk_slice, put_burst_slice, put_own_bulk_slice, put_own_burst_slice, take_bulk_slice,
    take_burst_slice, try_put_bulk_slice, try_put_burst_slice, try_take_bulk_slice,
    try_take_burst_slice, try_take_slice,
};
pub use spares::{SpareFault, Spares};
pub use take::take_into;
pub use unfinished::is_transient;
pub use values::{
    put_bulk, put_burst, take_bulk, take_burst, try_put_bulk, try_put_burst, try_take_bulk,
    try_take_burst,
};
