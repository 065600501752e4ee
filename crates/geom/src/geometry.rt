//! The size of a ring, its capacity, and the slot of a position (DPDK Programmer's Guide, "Ring Library").
//!
//! The number of slots is a power of two, so the slot of a position is a mask and not a division. At least one slot
//! always stays empty.

ghost use Rattle.std.specs.Prelude.{◌≡◌, ◌≢◌, ℕ, ◌+◌, ◌-◌, ◌<◌, ◌^◌};
ghost use Rattle.std.specs.Int.{IsPowerOfTwo};
ghost use Rattle.geom.specs.Extent.{IsExtent, slot_of};
ghost use Rattle.geom.specs.Fault.{number_of};
ghost use Rattle.geom.specs.Sizes.{power_gives, exact_gives, with_positions};

use crate::word::{COUNT_BITS, LAST};
use std::marker::Model;
use thiserror::Error;

/// The maximum number of slots of a ring.
const MAX_SIZE: u64 = 1 << 20;

/// The maximum number of items that a ring holds, and so the length of the longest span.
pub const MAX_CAPACITY: u64 = MAX_SIZE - 1;

/// Why a ring can't have the requested size or capacity.
#[derive(Clone, Copy, Debug, PartialEq, Eq, Error)]
pub enum GeomFault {
    /// A number of slots from 2 to 2^20 that is not a power of two.
    #[error("NotPower")]
    NotPower = 1,
    /// Fewer than two slots, or a capacity of 0.
    #[error("TooSmall")]
    TooSmall = 2,
    /// More than 2^20 slots, or a capacity that needs more.
    #[error("TooLarge")]
    TooLarge = 3,
}

impl GeomFault {
    /// 1 `NotPower`, 2 `TooSmall`, 3 `TooLarge`.
    pub fn number(self) -> u8
        ensures { result ≡ number_of self }
    {
        self as u8
    }
}

/// The number of slots and the capacity of a ring: a power of two of slots, and fewer items than slots.
#[derive(Clone, Copy, Debug)]
pub struct Geometry {
    last: u64,
    size: u32,
    capacity: u32,
    count_bits: u32,
}

impl Model for Geometry {
    ghost use Rattle.geom.specs.Extent.{Extent, extent_code, IsExtent};

    ghost Value = { Extent };

    ghost coded = { extent_code };

    ghost view = { λ g. record { size = g.size; capacity = g.capacity; last = g.last; count_bits = g.count_bits } };

    ghost invariant = { λ g. IsExtent
        record { size = g.size; capacity = g.capacity; last = g.last; count_bits = g.count_bits } };

    ghost inverse = { λ e. record { size = e.size; capacity = e.capacity; last = e.last; count_bits = e.count_bits } };
}

impl Geometry {
    /// The geometry with `count` slots, for `count - 1` items.
    ///
    /// Errors, in this order: 2 `TooSmall` below 2, 3 `TooLarge` above 2^20, 1 `NotPower` if `count` is not a power of
    /// two.
    pub fn power(count: u64) -> Result<Geometry, GeomFault>
        ensures given { result ≡ power_gives count }
        ensures power { result ≡ Err GeomFault.NotPower → ¬ IsPowerOfTwo count }
    {
        if count < 2 {
            return Err(GeomFault::TooSmall);
        }
        if count > MAX_SIZE {
            return Err(GeomFault::TooLarge);
        }
        if count.next_power_of_two() != count {
            return Err(GeomFault::NotPower);
        }
        Ok(Geometry {
            last: LAST,
            size: count as u32,
            capacity: (count - 1) as u32,
            count_bits: COUNT_BITS,
        })
    }

    /// The geometry for exactly `capacity` items: its size is the least power of two above `capacity` (like
    /// `RING_F_EXACT_SZ`).
    ///
    /// Errors, in this order: 2 `TooSmall` at 0, 3 `TooLarge` above 2^20 - 1.
    pub fn exact(capacity: u64) -> Result<Geometry, GeomFault>
        ensures { result ≡ exact_gives capacity }
    {
        if capacity == 0 {
            return Err(GeomFault::TooSmall);
        }
        if capacity > MAX_CAPACITY {
            return Err(GeomFault::TooLarge);
        }
        Ok(Geometry {
            last: LAST,
            size: (capacity + 1).next_power_of_two() as u32,
            capacity: capacity as u32,
            count_bits: COUNT_BITS,
        })
    }

    /// The same ring with another greatest position, and another number of low bits for the count in a head/tail-sync
    /// word. `None` if a word of 64 bits has no room for both, or if `count_bits` isn't from 1 to 63.
    pub fn with_positions(self, last: u64, count_bits: u32) -> Option<Geometry>
        ensures { result ≡ with_positions self last count_bits }
    {
        if count_bits == 0 || count_bits > 63 || last > u64::MAX >> count_bits {
            return None;
        }
        Some(Geometry {
            last,
            size: self.size,
            capacity: self.capacity,
            count_bits,
        })
    }

    /// The number of slots: a power of two, 2 to 2^20.
    pub const fn size(self) -> u64
        ensures value { result ≡ self.size }
        ensures extent { IsExtent self }
    {
        self.size as u64
    }

    /// The number of items the ring can hold: at least 1, and less than the number of slots.
    pub const fn capacity(self) -> u64
        ensures value { result ≡ self.capacity }
        ensures extent { IsExtent self }
    {
        self.capacity as u64
    }

    /// The greatest position that the ring ever has: a reservation that ends above it is refused.
    pub const fn last(self) -> u64
        ensures value { result ≡ self.last }
        ensures extent { IsExtent self }
        ensures small { self.last < 2 ^ 63 }
    {
        self.last
    }

    /// The number of low bits of a head/tail-sync word that hold the count of reserved positions, 1 to 63.
    pub const fn count_bits(self) -> u32
        ensures value { result ≡ self.count_bits }
        ensures extent { IsExtent self }
    {
        self.count_bits
    }

    /// The slot of a position, below the size. Two positions less than the size apart have different slots.
    pub const fn slot(self, position: u64) -> u64
        ensures value { result ≡ slot_of self position }
        ensures within { result < self.size }
        ensures apart { (other : ℕ) → position < other → other < position + self.size → slot_of self other ≢ result }
    {
        position & (self.size as u64 - 1)
    }
}
