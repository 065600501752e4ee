//! Where segments come from. There is no other way to make one, so a number names the same buffer forever.
ghost use Rattle.std.specs.Prelude.{◌≡◌, ◌≤◌, IfOk};
ghost use Rattle.std.specs.List.{range_with_len};
ghost use Rattle.burst.specs.Numbers.{AreDistinct};
ghost use Rattle.mbuf.specs.Chain.{made_all, all_numbers};

use crate::chain::Chain;
use std::alloc::{AllocError, Global};

/// Makes `count` fresh segments, each a chain of its own, numbered from 0 in the order of the list: with `headroom`
/// free bytes before the place of its first byte and `room` free bytes from there on. Requires: each of the three
/// numbers is at most 65,536.
///
/// Takes all the memory that chains ever need. Errors: `AllocError` if out of memory.
pub fn make(
    alloc: Global,
    count: u32,
    headroom: usize,
    room: usize,
) -> Result<Vec<Chain>, AllocError>
    requires count { count ≤ 65536 }
    requires headroom { headroom ≤ 65536 }
    requires room { room ≤ 65536 }
    ensures made { IfOk result (λ chains. chains.items ≡ made_all headroom room count) }
    ensures numbers { IfOk result (λ chains. all_numbers chains.items ≡ range_with_len 0 count) }
    ensures distinct { IfOk result (λ chains. AreDistinct (all_numbers chains.items)) }
{
    let mut chains = Vec::with_capacity(alloc, count as usize)?;
    for number in 0..count {
        chains.push(Chain::make(alloc, number, headroom, room)?)?;
    }
    Ok(chains)
}
