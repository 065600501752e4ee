//! The exports of the C library: rings of words, pools of numbers, routes, forwarding tables, forwarding and reorder
//! windows, over handles that C keeps.
#![tactic(auto)]

mod end_exports;
mod fib_exports;
mod fibs;
mod forward_exports;
mod forwarders;
mod hand_exports;
mod hand_looks;
mod handle;
mod hold_exports;
mod keeping;
mod loose;
mod object;
mod pool_exports;
mod pool_handles;
mod pools;
mod reorder_exports;
mod reorder_windows;
mod ring_exports;
mod rings;
mod route_exports;
mod route_tables;
mod span_exports;
