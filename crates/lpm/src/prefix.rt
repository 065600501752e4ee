//! A prefix of IPv4 addresses: the key of a table's members.

ghost use Rattle.std.specs.Prelude.{◌≡◌, ◌<◌};

/// An address with the bits after the first `depth` cleared.
#[derive(Clone, Copy, Debug, PartialEq, Eq, PartialOrd, Ord)]
pub struct Prefix {
    pub address: u32,
    pub depth: u8,
}

impl Prefix {
    ghost use Rattle.lpm.specs.Prefixes.{IsDepth, prefix_of};

    /// The prefix of length `depth` that covers `address`.
    pub fn of(address: u32, depth: u8) -> Prefix
        requires { IsDepth depth }
        ensures { result ≡ prefix_of address depth }
    {
        let low = 32 - depth;
        Prefix {
            address: address >> low << low,
            depth,
        }
    }
}
