//! A change of what a router forwards by.

/// One change, as it is kept until both copies have it.
#[derive(Clone, Copy, Debug, PartialEq, Eq)]
pub enum Change<H, P> {
    /// The address and the depth of a route to add, and the number of its next hop.
    Add(u32, u8, u32),
    /// The address and the depth of a route to remove.
    Remove(u32, u8),
    /// All routes are removed.
    Clear,
    /// The number of a next hop, and what it is from now on.
    SetHop(u32, H),
    /// The number of a port, and what it is from now on.
    SetPort(u32, P),
}
