//! The Internet checksum (RFC 1071).
ghost use Rattle.std.specs.Prelude.{◌≡◌, ◌≤◌, ◌<◌, ◌^◌, ◌%◌, ◌/◌, ◌+◌, length};
ghost use Rattle.ipv4.specs.Checksum.{ones_complement_sum, reduced};

use crate::fields::word_at;

/// The one's complement sum of the bytes as 16-bit numbers, high byte first. Requires: an even number of bytes, at most
/// 60, as in the longest IPv4 header. A header with a correct checksum sums to 0xFFFF.
#[inline(always)]
pub fn sum16(bytes: &[u8]) -> u16
    requires even { length bytes.now % 2 ≡ 0 }
    requires short { length bytes.now ≤ 60 }
    ensures { result ≡ ones_complement_sum bytes.now }
{
    let mut total = 0u64;
    let mut rest = bytes;
    while rest.len() >= 4 {
        total += u64::from(u32::from_be_bytes([rest[0], rest[1], rest[2], rest[3]]));
        rest = rest.split_at(4).1;
    }
    if rest.len() == 2 {
        total += u64::from(word_at(rest, 0));
    }
    carried(total)
}

/// The total, with the carries out of 16 bits added back at the low end.
#[inline]
fn carried(total: u64) -> u16
    requires { total < 2 ^ 36 }
    ensures { result ≡ reduced total }
{
    let once = (total & 0xffff) + (total >> 16 & 0xffff) + (total >> 32);
    let twice = (once & 0xffff) + (once >> 16);
    ((twice & 0xffff) + (twice >> 16)) as u16
}
