//! The single word of a head/tail-sync side: its tail, and how many positions are reserved from there on.
//!
//! Positions are 64-bit numbers that never wrap. A word has its position in the high bits and its count in the low
//! ones: 44 and 20 bits unless the ring's geometry says otherwise.

ghost use Rattle.std.specs.Prelude.{◌≡◌, ◌+◌, ◌*◌, ◌/◌, ◌%◌, ◌<◌, ◌≤◌};
ghost use Rattle.geom.specs.Extent.{IsExtent, packed, range_of};
ghost use Rattle.geom.specs.Word.{pack as pack_lem, unpack as unpack_lem};

use crate::geometry::Geometry;

/// The greatest position of a ring whose geometry sets no other one, 2^44 - 1.
pub const LAST: u64 = 0xfff_ffff_ffff;

/// The number of low bits for the count in a word, unless a geometry sets another one.
pub(crate) const COUNT_BITS: u32 = 20;

/// The reserved count of a packed word is below this, 2^20.
pub const RESERVED_RANGE: u64 = 1 << COUNT_BITS;

/// The word for a tail at `position` with `reserved` positions reserved from there on.
pub const fn pack(position: u64, reserved: u64) -> u64
    requires position { position ≤ LAST }
    requires reserved { reserved < RESERVED_RANGE }
    ensures { result ≡ pack_lem position reserved }
{
    position * RESERVED_RANGE + reserved
}

/// The position and the reserved count of a word: what was packed, and for any other number the quotient and remainder.
pub const fn unpack(word: u64) -> (u64, u64)
    ensures parts { result ≡ unpack_lem word }
    ensures position { result.0 ≤ LAST }
    ensures reserved { result.1 < RESERVED_RANGE }
    ensures whole { pack_lem result.0 result.1 ≡ word }
{
    (word / RESERVED_RANGE, word % RESERVED_RANGE)
}

impl Geometry {
    /// The word of a head/tail-sync side of the ring, with its tail at `position` and `reserved` positions reserved
    /// from there on. It is exact up to the ring's greatest position.
    #[inline]
    pub fn word(self, position: u64, reserved: u64) -> u64
        ensures value { result ≡ packed self position reserved }
        ensures extent { IsExtent self }
    {
        (position << self.count_bits()).wrapping_add(reserved)
    }

    /// The count of reserved positions in a head/tail-sync word of the ring is below this.
    #[inline]
    pub fn range(self) -> u64
        ensures value { result ≡ range_of self }
        ensures some { 0 < result }
        ensures extent { IsExtent self }
    {
        1 << self.count_bits()
    }

    /// The position in a word of a head/tail-sync side of the ring.
    #[inline]
    pub fn position_in(self, word: u64) -> u64
        ensures { result ≡ word / range_of self }
    {
        word >> self.count_bits()
    }

    /// The count of reserved positions in a word of a head/tail-sync side of the ring.
    #[inline]
    pub fn reserved_in(self, word: u64) -> u64
        ensures value { result ≡ word % range_of self }
        ensures range { result < range_of self }
    {
        word & (self.range() - 1)
    }
}
