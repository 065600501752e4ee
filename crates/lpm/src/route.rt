//! One route of a table, as a walk shows it.

/// A route: the first `depth` bits of `address`, whose other bits are 0, and the next hop.
#[derive(Clone, Copy, Debug, PartialEq, Eq)]
pub struct Route {
    pub address: u32,
    /// From 1 to 32.
    pub depth: u8,
    pub hop: u32,
}
