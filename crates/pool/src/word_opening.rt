//! Making a cache of words, and getting its hand and its words back.
ghost use Rattle.std.specs.Prelude.{◌≡◌, ◌+◌, ◌≤◌, [], IfOk, IfErr};
ghost use Rattle.fabric.specs.Hands.{SameHand, view};
ghost use Rattle.pool_laws.specs.Caches.{threshold};
ghost use Rattle.pool.specs.Faults.{cache_number_of};
ghost use Rattle.ringapi.specs.Holdings.{IsFreeRing};
ghost use Rattle.pool.specs.Openings.{RefusesSize, RefusesWords};
ghost use Rattle.pool.specs.Locals.{HasHand, cache_of, cache_size, ring_of};

use crate::local::Local;
use crate::sizes::{BATCH, may_be};
use crate::word_stack::WordStack;
use burst::Word;
use fabric::{Hand, Stored, Words};
use pool_laws::PoolFault;
use std::alloc::Global;
use thiserror::Error;

/// Why no cache of words is made.
#[derive(Drop, Clone, Copy, Debug, PartialEq, Eq, Error)]
pub enum CacheFault {
    /// Out of memory for its arrays.
    #[error("Memory")]
    Memory,
    /// No cache can have this size or these words: `BadSize`, `NotYours` or `CacheFull`.
    #[error("{0}")]
    Pool(PoolFault),
}

impl CacheFault {
    /// The number of the pool's fault, 1 to 5, or 6 for `Memory`.
    pub fn number(self) -> u8
        ensures { result ≡ cache_number_of self }
    {
        match self {
            CacheFault::Memory => 6,
            CacheFault::Pool(fault) => fault.number(),
        }
    }
}

impl<T: Word, const N: usize, S: Stored<T>> Local<T, N, S, WordStack<T>> {
    /// An empty cache of this size, 0 to 512, in front of a free ring. Requires: the ring is one of the hand's fabric,
    /// and free. Takes the memory of its arrays: `floor(3 * size / 2) + 64` words, and two bytes for each buffer of the
    /// fabric.
    ///
    /// Errors, in the order of the tests: `BadSize` if the size is above 512, or the array would have more than `N`
    /// words; `Memory`. The hand comes back.
    pub fn new(
        alloc: Global,
        hand: Hand<T, S>,
        ring: usize,
        size: usize,
    ) -> Result<Local<T, N, S, WordStack<T>>, (Hand<T, S>, CacheFault)>
        requires free { IsFreeRing (view hand).plans ring }
        ensures made { IfOk result (λ l. HasHand hand l × (ring_of l ≡ ring) × (cache_size l ≡ size)) }
        ensures empty { IfOk result (λ l. cache_of l ≡ []) }
        ensures fits { IfOk result (λ l. (size ≤ 512) × (threshold size + 64 ≤ N)) }
        ensures back { IfErr result (λ e. e.0 ≡ hand) }
        ensures refused { IfErr result (λ e. RefusesSize size N e.1) }
    {
        if !may_be(size, N) {
            return Err((hand, CacheFault::Pool(PoolFault::BadSize)));
        }
        let Ok(cache) = WordStack::new(alloc, 3 * size / 2 + BATCH, hand.buffers()) else {
            return Err((hand, CacheFault::Memory));
        };
        Ok(Local::over(hand, cache, ring, size))
    }

    /// A cache of this size that has the words of a slice, the oldest first, as `into_hand` returned them. Requires: as
    /// for `new`. Takes the memory of its arrays.
    ///
    /// Errors, in the order of the tests: `BadSize`, `Memory`, as for `new`; `NotYours`; `CacheFull` if there are more
    /// than `floor(3 * size / 2)`. The hand comes back.
    pub fn resume(
        alloc: Global,
        hand: Hand<T, S>,
        items: &[T],
        ring: usize,
        size: usize,
    ) -> Result<Local<T, N, S, WordStack<T>>, (Hand<T, S>, CacheFault)>
        requires free { IsFreeRing (view hand).plans ring }
        ensures made { IfOk result (λ l. HasHand hand l × (ring_of l ≡ ring) × (cache_size l ≡ size)) }
        ensures cached { IfOk result (λ l. cache_of l ≡ items.now) }
        ensures fits { IfOk result (λ l. (size ≤ 512) × (threshold size + 64 ≤ N)) }
        ensures back { IfErr result (λ e. SameHand hand e.0) }
        ensures refused { IfErr result (λ e. RefusesWords T.numbers (view hand) size N items.now e.1) }
    {
        if !may_be(size, N) {
            return Err((hand, CacheFault::Pool(PoolFault::BadSize)));
        }
        let Ok(cache) = WordStack::new(alloc, 3 * size / 2 + BATCH, hand.buffers()) else {
            return Err((hand, CacheFault::Memory));
        };
        let mut words = Words { words: items };
        match Local::over_list(hand, cache, &mut words, ring, size) {
            Ok(local) => Ok(local),
            Err((hand, fault)) => Err((hand, CacheFault::Pool(fault))),
        }
    }
}
