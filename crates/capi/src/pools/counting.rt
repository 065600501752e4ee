//! How many numbers are on the rings of a pool.
ghost use Rattle.std.specs.Prelude.{◌≡◌, ◌<◌, Ok, length};
ghost use Rattle.geom.specs.declared.plan.Side.TheVariants.{Take};
ghost use Rattle.fabric.specs.Hands.{rings_of};
ghost use Rattle.pool.specs.Locals.{IsLocalOf, SameCache, SameRing, view_of};
ghost use Rattle.capi.specs.Counts.{Looks};
ghost use Rattle.capi.specs.PoolMembers.{numbers_of};
ghost use Rattle.capi.specs.Same.{CountsFree, CountsNumbers};

use crate::pools::member::{PoolCache, PoolMember, PoolRings};
use crate::rings::{Fault, queued_or_room};
use geom::Side;

/// How many numbers are queued on a ring of the fabric, or how many more it takes.
fn count_at(f: &PoolRings, local: &mut PoolCache, ring: usize, side: Side) -> u32
    requires local { IsLocalOf f.now local.old }
    requires ring { ring < length (rings_of f.now) }
    ensures local { IsLocalOf f.now local.new }
    ensures same { SameRing local.old local.new × SameCache local.old local.new }
    ensures found { Looks numbers_of f.now ring side (view_of local.old) (view_of local.new) (Ok result) }
{
    let count = local.count(f, ring);
    queued_or_room(side, f.capacity(ring), count)
}

/// How many numbers are queued on a ring that passes them on, or how many more it takes. Errors: `Ring`.
pub fn count_on(pool: &mut PoolMember, ring: usize, side: Side) -> Result<u32, Fault>
    ensures { CountsNumbers ring side pool.old pool.new result }
{
    if ring >= pool.rings {
        return Err(Fault::Ring);
    }
    // Ring 0 is the free ring.
    Ok(count_at(&pool.fabric, &mut pool.local, ring + 1, side))
}

/// How many numbers are on the free ring. Those in the caches of handles aren't.
pub fn count_free(pool: &mut PoolMember) -> u32
    ensures { CountsFree pool.old pool.new (Ok result) }
{
    count_at(&pool.fabric, &mut pool.local, 0, Side::Take)
}
