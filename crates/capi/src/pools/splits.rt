//! Splitting pools: a further handle, for another thread.
ghost use Rattle.std.specs.Prelude.{IfErr, IfOk};
ghost use Rattle.capi.specs.PoolOpenings.{IsSecond};
ghost use Rattle.capi.specs.Spare.{RefusesSpare};

use crate::pools::member::{PoolCache, PoolMember};
use crate::rings::{Fault, spare_fault};
use std::alloc::Global;
use std::sync::Arc;

/// A further handle on a pool, without a number. Errors: `Memory`; `Again`; `Parts`.
pub fn split_pool(alloc: Global, pool: &PoolMember) -> Result<PoolMember, Fault>
    ensures made { IfOk result (λ other. IsSecond pool.now other) }
    ensures refused { IfErr result RefusesSpare }
{
    let Ok(fabric) = Arc::try_clone(&pool.fabric) else {
        return Err(Fault::Memory);
    };
    let Ok(spares) = Arc::try_clone(&pool.spares) else {
        return Err(Fault::Memory);
    };
    match spares.next(alloc, &fabric) {
        Ok(hand) => match PoolCache::new(alloc, hand, 0, pool.local.size()) {
            Ok(local) => Ok(PoolMember {
                fabric,
                local,
                spares,
                rings: pool.rings,
            }),
            Err(_) => Err(Fault::Memory),
        },
        Err(why) => Err(spare_fault(why)),
    }
}
