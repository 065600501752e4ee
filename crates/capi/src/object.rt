//! The kinds of objects.
use crate::pools::PoolMember;
use crate::rings::{Leftover, Member};
use ipv4::Hop;
use live_routes::{Port, RouteReader, RouteWriter};
use lpm::Table;
use reorder::Window;
use std::sync::Arc;

/// What a handle has.
#[derive(Drop)]
pub enum Object {
    /// A hand on a set of rings.
    Hand(Member),
    /// What is left on rings that were closed.
    Leftover(Leftover),
    /// A table of routes, which several handles may share.
    Routes(Arc<Table>),
    /// A reorder window of words.
    Reorder(Window<u64>),
    /// A handle on a pool of numbers.
    Pool(PoolMember),
    /// The writer of what a router forwards by: routes, next hops and ports.
    Fib(RouteWriter<Hop, Port>),
    /// A reader of that, for one thread: it looks addresses up and forwards frames.
    Forward(RouteReader<Hop, Port>),
}

/// An object that one thread may use after another. The compiler checks it, by the bound. What is left on closed rings
/// isn't one: it stays with the thread that closed them.
trait ChangesThreads: Send {}

impl ChangesThreads for Member {}

impl ChangesThreads for Arc<Table> {}

impl ChangesThreads for Window<u64> {}

impl ChangesThreads for PoolMember {}

impl ChangesThreads for RouteWriter<Hop, Port> {}

impl ChangesThreads for RouteReader<Hop, Port> {}
