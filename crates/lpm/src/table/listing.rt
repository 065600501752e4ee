//! What routes a table has: the hop of one, how many there are, and a walk over all. None takes memory.

ghost use Rattle.std.specs.Prelude.{◌≡◌, ◌↔◌, Some, IfOk, IfErr, IfSome, IfNone, ◌⊎◌};
ghost use Rattle.std.specs.FinMap as map;
ghost use Rattle.lpm.specs.Prefixes.{IsDepth, IsMember, prefix_of};
ghost use Rattle.lpm.specs.Listing.{IsFirstFrom, NoneFrom};
ghost use Rattle.lpm.specs.Routes.{LacksRoute};

use super::{MAX_DEPTH, Table};
use crate::fault::RouteFault;
use crate::prefix::Prefix;
use crate::route::Route;

impl Table {
    /// The next hop of the route for exactly the first `depth` bits of `addr`.
    ///
    /// Errors, in this order: 1 `BadDepth` if `depth` is not from 1 to 32, 5 `NoRoute` if there is no such route.
    pub fn get(&self, addr: u32, depth: u8) -> Result<u32, RouteFault>
        ensures ok { IfOk result (λ hop. IsDepth depth × (map.get self.now.members (prefix_of addr depth) ≡ Some hop)) }
        ensures bad_depth { (result ≡ Err RouteFault.BadDepth) ↔ (¬ IsDepth depth) }
        ensures no_route { (result ≡ Err RouteFault.NoRoute) ↔ LacksRoute self.now addr depth }
        ensures others { IfErr result (λ fault. (fault ≡ RouteFault.BadDepth) ⊎ (fault ≡ RouteFault.NoRoute)) }
    {
        if depth == 0 || depth > MAX_DEPTH {
            return Err(RouteFault::BadDepth);
        }
        match self.members.get(Prefix::of(addr, depth)) {
            Some(hop) => Ok(hop),
            None => Err(RouteFault::NoRoute),
        }
    }

    /// How many routes there are.
    pub fn len(&self) -> usize
        ensures { result ≡ map.len self.now.members }
    {
        self.members.len()
    }

    /// Of the routes in order of their addresses, and then of their depths, the first that is not before this address
    /// and depth. A walk over all begins with 0 and 0, and goes on with the address of each route and one more than its
    /// depth. Routes may change on the way.
    pub fn next_route(&self, addr: u32, depth: u8) -> Option<Route>
        ensures found { IfSome result
            (λ r. IsFirstFrom self.now.members (record { address = addr; depth = depth })
            (record { address = r.address; depth = r.depth }) r.hop) }
        ensures member { IfSome result (λ r. IsMember (record { address = r.address; depth = r.depth }) r.hop) }
        ensures none { IfNone result (NoneFrom self.now.members (record { address = addr; depth = depth })) }
    {
        let low = Prefix {
            address: addr,
            depth,
        };
        let (prefix, hop) = self.members.first_from(low)?;
        Some(Route {
            address: prefix.address,
            depth: prefix.depth,
            hop,
        })
    }
}
