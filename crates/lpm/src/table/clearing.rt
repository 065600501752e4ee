//! Taking all routes out.

ghost use Rattle.std.specs.FinMap as map;
ghost use Rattle.lpm.specs.Routes.{HasMembers};

use super::Table;

impl Table {
    /// Removes every route, one after another. Takes no memory; the memory of groups and blocks is kept for reuse.
    pub fn clear(&mut self)
        ensures { HasMembers self.old self.new map.empty }
    {
        while let Some(route) = self.next_route(0, 0) {
            match self.remove(route.address, route.depth) {
                Ok(()) => {}
                Err(_) => unreachable!(),
            }
        }
    }
}
