//! The route table: its members in a search tree, and the two levels that `lookup` reads. Which calls take no memory is
//! read in the code and tested: a signature doesn't show it, since the tree and the levels carry their allocator.

ghost use Rattle.std.specs.Prelude.{◌≡◌, ◌<◌, ◌^◌, ◌↔◌, ◌⊎◌, ℕ, Some, None, IfOk, IfSome, IfNone, IsSome};
ghost use Rattle.std.specs.Prelude.{length, map, slice_index, slice_index_or};
ghost use Rattle.lpm.specs.Prefixes.{size_of};
ghost use Rattle.lpm.specs.Match.{IsLongestMatch, lookup_in};
ghost use Rattle.lpm.specs.Groups.{HasDeeper};
ghost use Rattle.lpm.specs.Routes.{address_of, group_at, IsInUse, IsNew};
ghost use Rattle.lpm.specs.Shown.{group_in, hop_in};
ghost use Rattle.lpm.specs.TwoLevels.{no_routes};

use crate::entry::Entry;
use crate::levels::Levels;
use crate::members::Members;
use crate::next_hop::NextHop;
use std::alloc::{AllocError, Global};
use std::marker::Model;

mod adding;
mod clearing;
mod listing;
mod refusing;
mod removing;

/// The maximum depth of a route.
const MAX_DEPTH: u8 = 32;

/// Routes to IPv4 prefixes, each with a next hop below 2^24. The longest route that covers an address is its match (RFC
/// 4632, section 5.1); the two levels are those of the Longest Prefix Match Library chapter of DPDK's Programmer's
/// Guide.
#[derive(Drop)]
pub struct Table {
    members: Members,
    levels: Levels,
}

impl Model for Table {
    ghost use Rattle.std.specs.Prelude.{map};
    ghost use Rattle.lpm.specs.TableEntry.{group_of};
    ghost use Rattle.lpm.specs.Routes.{Routes, routes_code};
    ghost use Rattle.lpm.specs.Right.{IsRight};

    ghost Value = { Routes };

    ghost coded = { routes_code };

    ghost view = { λ t. record {
      bits = t.levels.bits;
      limit = t.levels.limit;
      members = t.members;
      groups = map group_of t.levels.first;
    } };

    ghost invariant = { λ t. IsRight t.levels t.members };
}

impl Table {
    /// An empty table with a first level of 2^`bits` entries, of 4 bytes each, which are made here, and at most
    /// `groups` groups, each of 2^(32 - `bits`) entries, which are made as needed. Returns `Err` only if out of memory.
    pub fn new(alloc: Global, bits: u8, groups: u32) -> Result<Table, AllocError>
        requires { (bits ≡ 16) ⊎ (bits ≡ 24) }
        ensures { IfOk result (λ t. IsNew t bits groups) }
    {
        let levels = Levels::whole(alloc, bits, groups)?;
        Ok(Table::over(alloc, levels))
    }

    /// An empty table of the same size as `new` makes, whose entries are only reserved here: 8 bytes are written for
    /// each 256 of them. A block of 256 entries is written when a route first covers part of it. So
    /// such a table is made faster and takes less memory, and a lookup reads one word more, or two. Returns `Err` only
    /// if out of memory.
    pub fn sparse(alloc: Global, bits: u8, groups: u32) -> Result<Table, AllocError>
        requires { (bits ≡ 16) ⊎ (bits ≡ 24) }
        ensures { IfOk result (λ t. IsNew t bits groups) }
    {
        let levels = Levels::sparse(alloc, bits, groups)?;
        Ok(Table::over(alloc, levels))
    }

    /// An empty table over these levels.
    fn over(alloc: Global, levels: Levels) -> Table
        requires form { (levels.bits ≡ 16) ⊎ (levels.bits ≡ 24) }
        requires none { levels ≡ no_routes levels.bits levels.limit }
        ensures { IsNew result levels.bits levels.limit }
    {
        Table {
            members: Members::new(alloc),
            levels,
        }
    }

    /// How many of an address's first bits select its first-level entry: 16 or 24, as the table was made.
    pub fn bits(&self) -> u8
        ensures value { result ≡ self.now.bits }
        ensures form { (result ≡ 16) ⊎ (result ≡ 24) }
    {
        self.levels.bits()
    }

    /// The next hop of the longest route that covers the address. Takes no memory; reads one or two entries, and in a
    /// `sparse` table one or two words more.
    #[inline]
    pub fn lookup(&self, addr: u32) -> Option<u32>
        ensures longest { IsLongestMatch self.now.members addr result }
        ensures value { result ≡ lookup_in self.now.members addr }
        ensures small { IfSome result (λ hop. hop < 2 ^ 24) }
    {
        self.levels.entry_for(addr).hop()
    }

    /// The next hops for a burst of addresses: at each index of `hops`, which has the same length, what `lookup`
    /// returns for the address at that index, in 4 bytes. Takes no memory.
    pub fn lookup_bulk(&self, addresses: &[u32], hops: &mut [NextHop])
        requires { length addresses.now ≡ length hops.old }
        ensures longest { (k : ℕ) → k < length addresses.now
            → IsLongestMatch self.now.members (slice_index addresses.now k) (slice_index_or hops.new k None) }
        ensures value { hops.new ≡ map (lookup_in self.now.members) addresses.now }
        ensures small { (k : ℕ) → k < length addresses.now
            → IfSome (slice_index_or hops.new k None) (λ hop. hop < 2 ^ 24) }
    {
        self.levels.hops_for(addresses, hops);
    }

    /// The first-level entry of the addresses whose first bits are `first`: their group if a route deeper than the
    /// first level has these first bits, otherwise the one result that `lookup` returns for each of them. Takes no
    /// memory.
    pub fn entry(&self, first: u32) -> Entry
        requires { first < 2 ^ self.now.bits }
        ensures group { group_in result ≡ group_at self.now first }
        ensures deeper { IsSome (group_in result) ↔ HasDeeper self.now.bits self.now.members first }
        ensures below { IfSome (group_in result) (λ group. group < self.now.limit) }
        ensures alone { IfSome (group_in result)
            (λ group. (other : ℕ) → group_at self.now other ≡ Some group → other ≡ first) }
        ensures hop { IfNone (group_in result) ((low : ℕ) → low < size_of self.now.bits
            → IsLongestMatch self.now.members (address_of self.now first low) (hop_in result)) }
    {
        let entry = self.levels.first(first as usize);
        if entry.is_group() {
            return Entry::Group(entry.number());
        }
        match entry.hop() {
            Some(hop) => Entry::Hop(hop),
            None => Entry::None,
        }
    }

    /// Place `low` of a group in use: what `lookup` returns for the address whose first bits are those of the group's
    /// entry, and whose other bits are `low`. Takes no memory.
    pub fn group_entry(&self, group: u32, low: u32) -> Option<u32>
        requires used { IsInUse self.now group }
        requires place { low < size_of self.now.bits }
        ensures { (first : ℕ) → first < 2 ^ self.now.bits → group_at self.now first ≡ Some group
            → IsLongestMatch self.now.members (address_of self.now first low) result }
    {
        self.levels.in_group(group, low as usize).hop()
    }
}
