//! Writes to the places that a prefix covers: whole entries, or a range of one entry's group.

ghost use Rattle.std.specs.Prelude.{◌≡◌, ◌+◌, ◌≤◌, ◌<◌, ◌^◌, IsTrue, true, false};
ghost use Rattle.lpm.specs.TableEntry.{is_group};
ghost use Rattle.lpm.specs.TwoLevels.{first_at, KeepsGroups, Overwrites, OverwritesWithin, OverwritesEntries};
ghost use Rattle.lpm.specs.Prefixes.{IsDepth, first_bits, masked, size_of};

use super::Levels;
use crate::first_level::blocks::BLOCK;
use crate::overwrite::overwrite;
use crate::packed_entry::PackedEntry;
use crate::places::{first_of, low_of, place, size};
use crate::prefix::Prefix;

impl Levels {
    /// Overwrites the places of one entry's group from `from` up to `to`, exclusive.
    fn overwrite_group(
        &mut self,
        first: usize,
        from: usize,
        to: usize,
        depth: u8,
        entry: PackedEntry,
    )
        requires first { first < 2 ^ self.old.bits }
        requires grouped { is_group (first_at self.old first) ≡ true }
        requires ordered { from ≤ to }
        requires within { to ≤ size_of self.old.bits }
        ensures keeps { KeepsGroups self.old self.new }
        ensures overwrites { OverwritesWithin self.old self.new first from to depth entry }
    {
        let group = self.first.at(first).number();
        let start = place(group, from, self.bits);
        let end = place(group, to, self.bits);
        overwrite(&mut self.groups, start, end, depth, entry);
    }

    /// Writes `entry` to each place of one entry whose depth is at most `depth`. So do the functions below.
    // inlined, as what it calls is: a route of few bits has millions of entries
    #[inline(always)]
    fn overwrite_entry(&mut self, first: usize, depth: u8, entry: PackedEntry)
        requires first { first < 2 ^ self.old.bits }
        requires plain { is_group entry ≡ false }
        ensures keeps { KeepsGroups self.old self.new }
        ensures overwrites { OverwritesEntries self.old self.new first (first + 1) depth entry }
    {
        let old = self.first.at(first);
        if old.is_group() {
            self.overwrite_group(first, 0, size(self.bits), depth, entry);
        } else if old.depth() <= depth {
            self.first.set(first, entry);
        }
    }

    /// Writes to the places of the block that begins with this entry, or returns false and changes nothing.
    fn overwrite_block(&mut self, first: usize, depth: u8, entry: PackedEntry) -> bool
        requires within { first + 256 ≤ 2 ^ self.old.bits }
        requires plain { is_group entry ≡ false }
        ensures keeps { IsTrue result → KeepsGroups self.old self.new }
        ensures overwrites { IsTrue result → OverwritesEntries self.old self.new first (first + 256) depth entry }
        ensures kept { result ≡ false → self.new ≡ self.old }
    {
        self.first.overwrite_block(first, depth, entry)
    }

    /// Writes to the places of some entries, from `first` on, but none from `to` on. Returns how many entries: a block,
    /// if that is one step, or one.
    #[inline(always)]
    fn overwrite_some(&mut self, first: usize, to: usize, depth: u8, entry: PackedEntry) -> usize
        requires some { first < to }
        requires within { to ≤ 2 ^ self.old.bits }
        requires plain { is_group entry ≡ false }
        ensures some { 0 < result }
        ensures within { first + result ≤ to }
        ensures keeps { KeepsGroups self.old self.new }
        ensures overwrites { OverwritesEntries self.old self.new first (first + result) depth entry }
    {
        if to - first >= BLOCK {
            if self.overwrite_block(first, depth, entry) {
                return BLOCK;
            }
        }
        self.overwrite_entry(first, depth, entry);
        1
    }

    /// Writes to the places of the entries from `from` up to `to`, exclusive.
    fn overwrite_entries(&mut self, from: usize, to: usize, depth: u8, entry: PackedEntry)
        requires ordered { from ≤ to }
        requires within { to ≤ 2 ^ self.old.bits }
        requires plain { is_group entry ≡ false }
        ensures keeps { KeepsGroups self.old self.new }
        ensures overwrites { OverwritesEntries self.old self.new from to depth entry }
    {
        let mut first = from;
        while first < to {
            first += self.overwrite_some(first, to, depth, entry);
        }
    }

    /// Writes to the places of a prefix. If it is deeper than the first level, its entry has to have a group.
    pub fn overwrite(&mut self, prefix: Prefix, entry: PackedEntry)
        requires depth { IsDepth prefix.depth }
        requires masked { masked prefix.address prefix.depth ≡ prefix.address }
        requires plain { is_group entry ≡ false }
        requires grouped { self.old.bits < prefix.depth
            → is_group (first_at self.old (first_bits prefix.address self.old.bits)) ≡ true }
        ensures keeps { KeepsGroups self.old self.new }
        ensures overwrites { Overwrites self.old self.new prefix entry }
    {
        let first = first_of(prefix.address, self.bits);
        if prefix.depth <= self.bits {
            let count = 1usize << (self.bits - prefix.depth);
            self.overwrite_entries(first, first + count, prefix.depth, entry);
        } else {
            let from = low_of(prefix.address, self.bits);
            self.overwrite_group(first, from, from + size(prefix.depth), prefix.depth, entry);
        }
    }
}
