//! Callers: the only route of a table is the longest match for the address it was added with, a
//! burst returns for each address what `lookup` returns, and so do the entries.
ghost use Rattle.std.specs.Prelude.{◌≡◌, ◌%◌, ◌≤◌, ◌<◌, ◌^◌, IfOk, Some};
ghost use Rattle.lpm.specs.Match.{IsLongestMatch, lookup_in};
ghost use Rattle.lpm.specs.Prefixes.{IsDepth, first_bits, size_of};

use lpm::{Entry, NextHop, RouteFault, Table};
use std::alloc::Global;

/// What a table with this one route returns for the address.
pub fn sole_route(alloc: Global, addr: u32, depth: u8, hop: u32) -> Result<Option<u32>, RouteFault>
    requires depth { IsDepth depth }
    requires hop { hop < 2 ^ 24 }
    ensures { IfOk result (λ found. found ≡ Some hop) }
{
    let Ok(mut table) = Table::new(alloc, 16, 1) else {
        return Err(RouteFault::Memory);
    };
    table.add(addr, depth, hop)?;
    Ok(table.lookup(addr))
}

/// What a table returns for two addresses, looked up in one burst.
pub fn look_up_two(table: &Table, first: u32, second: u32) -> (Option<u32>, Option<u32>)
    ensures first { result.0 ≡ lookup_in table.now.members first }
    ensures second { result.1 ≡ lookup_in table.now.members second }
{
    let mut hops = [NextHop::none(); 2];
    table.lookup_bulk(&[first, second], &mut hops);
    (hops[0].hop(), hops[1].hop())
}

/// What a table has for the address, read from its entries.
pub fn read(table: &Table, addr: u32) -> Option<u32>
    ensures { IsLongestMatch table.now.members addr result }
{
    let bits = table.bits();
    match table.entry(first_of(addr, bits)) {
        Entry::Group(group) => table.group_entry(group, low_of(addr, bits)),
        Entry::Hop(hop) => Some(hop),
        Entry::None => None,
    }
}

/// The number formed by an address's first `bits` bits.
fn first_of(address: u32, bits: u8) -> u32
    requires nonzero { 0 < bits }
    requires most { bits ≤ 32 }
    ensures value { result ≡ first_bits address bits }
    ensures below { result < 2 ^ bits }
{
    address >> (32 - bits)
}

/// The number formed by its other bits.
fn low_of(address: u32, bits: u8) -> u32
    requires nonzero { 0 < bits }
    requires most { bits ≤ 32 }
    ensures value { result ≡ address % size_of bits }
    ensures below { result < size_of bits }
{
    (u64::from(address) % (1u64 << (32 - bits))) as u32
}
