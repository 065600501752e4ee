//! Pools of numbers, for calls from C: a cache with its rings in one value, and the calls on it.
//!
//! `member` is a thread's handle on a pool, `opening` makes the first one and `splits` the others. `gets` and `puts` go
//! through the cache, `sending` to the rings between handles, and `counting` counts what is on them. `tries` makes
//! their tries on a ring.
mod counting;
mod gets;
mod member;
mod opening;
mod puts;
mod sending;
mod splits;
mod tries;

pub(crate) use counting::{count_free, count_on};
pub(crate) use gets::{get_into, get_one};
pub(crate) use member::{Number, PoolMember};
pub(crate) use opening::open_pool;
pub(crate) use puts::{flush_numbers, put_back, put_one};
pub(crate) use sending::{receive_numbers, send_numbers};
pub(crate) use splits::split_pool;
