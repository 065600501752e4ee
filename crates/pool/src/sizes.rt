//! The sizes that a cache may have.
ghost use Rattle.std.specs.Prelude.{◌≡◌, ◌+◌, ◌<◌, ◌≤◌, ◌⊎◌, true, false};
ghost use Rattle.pool_laws.specs.Caches.{threshold};

/// The largest size of a cache.
const MAX_CACHE: usize = 512;

/// The most items that one call gets or puts.
pub(crate) const BATCH: usize = 64;

/// Whether a cache with room for `most` items can have this size: it is at most 512, and there is room for its
/// threshold and 64 more items.
pub(crate) fn may_be(size: usize, most: usize) -> bool
    ensures fits { result ≡ true → (size ≤ 512) × (threshold size + 64 ≤ most) }
    ensures other { result ≡ false → (512 < size) ⊎ (most < threshold size + 64) }
{
    if size > MAX_CACHE {
        return false;
    }
    3 * size / 2 + BATCH <= most
}
