//! The two levels of a table: entries for the first bits of an address (rte_lpm's tbl24), and groups of entries for
//! deeper routes (its tbl8). A group's memory is kept when no entry names it any more.

ghost use Rattle.std.specs.Prelude.{◌≡◌, ◌+◌, ◌≤◌, ◌^◌, ◌↔◌, ◌⊎◌, replicate, IfOk, IsTrue};
ghost use Rattle.lpm.specs.TableEntry.{entry_of};
ghost use Rattle.lpm.specs.FirstLevel.{entries_in};
ghost use Rattle.lpm.specs.TwoLevels.{no_routes, used_of};

use crate::first_level::FirstLevel;
use crate::packed_entry::PackedEntry;
use std::alloc::{AllocError, Global};
use std::marker::Model;

mod grouping;
mod overwriting;
mod reading;

/// The first-level entries, the groups one after another, and the list of free groups.
#[derive(Drop)]
pub struct Levels {
    bits: u8,
    limit: u32,
    first: FirstLevel,
    groups: Vec<PackedEntry>,
    free: Vec<u32>,
}

impl Model for Levels {
    ghost use Rattle.std.specs.Prelude.{length, vec_capacity};
    ghost use Rattle.lpm.specs.TwoLevels.{TwoLevels};
    ghost use Rattle.lpm.specs.Allocated.{GroupsAreAllocated};
    ghost use Rattle.lpm.specs.FirstLevel.{entries_in};

    ghost Value = { TwoLevels };

    ghost view = { λ l. record {
      bits = l.bits;
      limit = l.limit;
      first = entries_in l.first;
      groups = l.groups.items;
      free = length l.free.items;
    } };

    ghost invariant = { λ l.
        GroupsAreAllocated l.bits l.limit (entries_in l.first) l.groups.items l.free.items (vec_capacity l.free) };
}

impl Levels {
    /// Entries without a route, and no groups. Takes the memory of the first level and writes all of it.
    pub fn whole(alloc: Global, bits: u8, limit: u32) -> Result<Levels, AllocError>
        requires { (bits ≡ 16) ⊎ (bits ≡ 24) }
        ensures { IfOk result (λ l. l ≡ no_routes bits limit) }
    {
        let first = FirstLevel::whole(alloc, bits)?;
        Ok(Levels::below(alloc, bits, limit, first))
    }

    /// Entries without a route, and no groups. The first level is in blocks, of which one is written.
    pub fn sparse(alloc: Global, bits: u8, limit: u32) -> Result<Levels, AllocError>
        requires { (bits ≡ 16) ⊎ (bits ≡ 24) }
        ensures { IfOk result (λ l. l ≡ no_routes bits limit) }
    {
        let first = FirstLevel::sparse(alloc, bits)?;
        Ok(Levels::below(alloc, bits, limit, first))
    }

    /// No groups, below this first level.
    fn below(alloc: Global, bits: u8, limit: u32, first: FirstLevel) -> Levels
        requires form { (bits ≡ 16) ⊎ (bits ≡ 24) }
        requires first { entries_in first ≡ replicate (2 ^ bits) (entry_of 0 0) }
        ensures { result ≡ no_routes bits limit }
    {
        Levels {
            bits,
            limit,
            first,
            groups: Vec::new(alloc),
            free: Vec::new(alloc),
        }
    }

    /// How many of an address's first bits select its entry.
    pub fn bits(&self) -> u8
        ensures value { result ≡ self.now.bits }
        ensures form { (result ≡ 16) ⊎ (result ≡ 24) }
    {
        self.bits
    }

    /// How many groups have memory.
    fn made(&self) -> usize
        ensures { result ≡ used_of self.now + self.now.free }
    {
        self.groups.len() >> (32 - self.bits)
    }

    /// Whether the maximum number of groups is in use.
    pub fn is_full(&self) -> bool
        ensures full { IsTrue result ↔ (used_of self.now ≡ self.now.limit) }
        ensures within { used_of self.now ≤ self.now.limit }
    {
        self.free.is_empty() && self.made() == self.limit as usize
    }
}
