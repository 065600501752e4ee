//! The first-level entries (rte_lpm's tbl24): one after another, or in blocks.

ghost use Rattle.std.specs.Prelude.{◌≡◌, ◌+◌, ◌≤◌, ◌<◌, ◌^◌, ◌⊎◌, length, replicate, slice_index_or, slice_set, IfOk};
ghost use Rattle.std.specs.Prelude.{IsTrue, false};
ghost use Rattle.lpm.specs.Overwrite.{AreNoGroups, OverwritesFrom};
ghost use Rattle.lpm.specs.TableEntry.{entry_of};
ghost use Rattle.lpm.specs.FirstLevel.{entries_in};

pub mod blocks;

use crate::first_level::blocks::Blocks;
use crate::packed_entry::PackedEntry;
use std::alloc::{AllocError, Global};

/// An entry for each value of an address's first bits.
#[derive(Drop)]
pub enum FirstLevel {
    /// One after another, all written when the level is made: a lookup reads one word.
    Whole(Vec<PackedEntry>),
    /// In blocks, each of which is written when it is first overwritten in part: such a level is made faster.
    Sparse(Blocks),
}

impl FirstLevel {
    /// 2^`bits` entries without a route, which are written here.
    pub fn whole(alloc: Global, bits: u8) -> Result<FirstLevel, AllocError>
        requires { (bits ≡ 16) ⊎ (bits ≡ 24) }
        ensures { IfOk result (λ f. entries_in f ≡ replicate (2 ^ bits) (entry_of 0 0)) }
    {
        let size = 1usize << bits;
        Ok(FirstLevel::Whole(vec![in alloc; PackedEntry::none(); size]?))
    }

    /// 2^`bits` entries without a route. All of their memory is reserved here. One block of it is written, and two
    /// words for each block.
    pub fn sparse(alloc: Global, bits: u8) -> Result<FirstLevel, AllocError>
        requires { (bits ≡ 16) ⊎ (bits ≡ 24) }
        ensures { IfOk result (λ f. entries_in f ≡ replicate (2 ^ bits) (entry_of 0 0)) }
    {
        Ok(FirstLevel::Sparse(Blocks::new(alloc, bits)?))
    }

    /// One entry.
    #[inline(always)]
    pub fn at(&self, first: usize) -> PackedEntry
        requires { first < length (entries_in self.now) }
        ensures { result ≡ slice_index_or (entries_in self.now) first (entry_of 0 0) }
    {
        match self {
            FirstLevel::Whole(entries) => entries[first],
            FirstLevel::Sparse(blocks) => blocks.at(first),
        }
    }

    /// Overwrites one entry. Takes no memory.
    #[inline(always)]
    pub fn set(&mut self, first: usize, entry: PackedEntry)
        requires { first < length (entries_in self.old) }
        ensures { entries_in self.new ≡ slice_set (entries_in self.old) first entry }
    {
        match self {
            FirstLevel::Whole(entries) => entries[first] = entry,
            FirstLevel::Sparse(blocks) => blocks.set(first, entry),
        }
    }

    /// Overwrites the entries of the block that begins with this one, or returns false and changes nothing, as it
    /// always does if they aren't in blocks. Takes no memory.
    pub fn overwrite_block(&mut self, first: usize, depth: u8, entry: PackedEntry) -> bool
        requires { first + 256 ≤ length (entries_in self.old) }
        ensures done { IsTrue result
            → OverwritesFrom (entries_in self.old) (entries_in self.new) first (first + 256) depth entry }
        ensures plain { IsTrue result → AreNoGroups (entries_in self.old) first (first + 256) }
        ensures long { length (entries_in self.new) ≡ length (entries_in self.old) }
        ensures kept { result ≡ false → entries_in self.new ≡ entries_in self.old }
    {
        match self {
            FirstLevel::Whole(_) => false,
            FirstLevel::Sparse(blocks) => blocks.overwrite_block(first, depth, entry),
        }
    }
}
