//! The place of an address in the two levels: its first bits select a first-level entry, the others a place in that
//! entry's group.

ghost use Rattle.std.specs.Prelude.{◌≡◌, ◌+◌, ◌*◌, ◌%◌, ◌≤◌, ◌<◌, ◌^◌};
ghost use Rattle.lpm.specs.Prefixes.{first_bits, size_of};

/// How many addresses have the same first `bits` bits.
pub fn size(bits: u8) -> usize
    requires { bits ≤ 32 }
    ensures { result ≡ size_of bits }
{
    1usize << (32 - bits)
}

/// The number formed by an address's first `bits` bits.
pub fn first_of(address: u32, bits: u8) -> usize
    requires nonzero { 0 < bits }
    requires most { bits ≤ 32 }
    ensures value { result ≡ first_bits address bits }
    ensures below { result < 2 ^ bits }
{
    (address >> (32 - bits)) as usize
}

/// The number formed by an address's other bits.
pub fn low_of(address: u32, bits: u8) -> usize
    requires nonzero { 0 < bits }
    requires most { bits ≤ 32 }
    ensures value { result ≡ address % size_of bits }
    ensures below { result < size_of bits }
{
    (address & ((1u32 << (32 - bits)) - 1)) as usize
}

/// The index of a place among all groups.
pub fn place(group: u32, low: usize, bits: u8) -> usize
    requires group { group < 2 ^ 24 }
    requires nonzero { 0 < bits }
    requires most { bits ≤ 32 }
    requires low { low < 2 ^ 32 }
    ensures { result ≡ group * size_of bits + low }
{
    ((group as usize) << (32 - bits)) + low
}
