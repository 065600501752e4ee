//! Reads of the levels: for an address, a burst of addresses, one entry, and one place in a group. A lookup shifts by
//! constants only, as there is one form of it for each width of the first level.

ghost use Rattle.std.specs.Prelude.{◌≡◌, ◌<◌, ◌^◌, ◌⊎◌, ℕ, length, map, true};
ghost use Rattle.lpm.specs.Blocks.{entries_of, numbers_of, HasBlocks};
ghost use Rattle.lpm.specs.TableEntry.{is_group, hop_of};
ghost use Rattle.lpm.specs.TwoLevels.{entry_for, first_at, grouped_at};
ghost use Rattle.lpm.specs.Prefixes.{first_bits, size_of};

use super::Levels;
use crate::first_level::FirstLevel;
use crate::first_level::blocks::entry_at;
use crate::next_hop::NextHop;
use crate::packed_entry::PackedEntry;
use crate::places::{first_of, low_of, place};

impl Levels {
    /// The entry for an address.
    #[inline]
    pub fn entry_for(&self, address: u32) -> PackedEntry
        ensures { result ≡ entry_for self.now address }
    {
        match self.bits {
            16 => self.entry_by::<16>(address),
            _ => self.entry_by::<24>(address),
        }
    }

    /// The entry for an address, by its first `BITS` bits.
    #[inline(always)]
    fn entry_by<const BITS: u8>(&self, address: u32) -> PackedEntry
        requires { self.now.bits ≡ BITS }
        ensures { result ≡ entry_for self.now address }
    {
        let entry = self.first.at(first_of(address, BITS));
        self.entry_below::<BITS>(entry, address)
    }

    /// The entry for an address whose first-level entry this is: the same, or the one in the group that it names.
    #[inline(always)]
    fn entry_below<const BITS: u8>(&self, entry: PackedEntry, address: u32) -> PackedEntry
        requires bits { self.now.bits ≡ BITS }
        requires entry { entry ≡ first_at self.now (first_bits address BITS) }
        ensures { result ≡ entry_for self.now address }
    {
        if entry.is_group() {
            self.groups[place(entry.number(), low_of(address, BITS), BITS)]
        } else {
            entry
        }
    }

    /// The hops for a burst of addresses.
    pub fn hops_for(&self, addresses: &[u32], hops: &mut [NextHop])
        requires { length addresses.now ≡ length hops.old }
        ensures { hops.new ≡ map (λ address. hop_of (entry_for self.now address)) addresses.now }
    {
        match self.bits {
            16 => self.hops_by::<16>(addresses, hops),
            _ => self.hops_by::<24>(addresses, hops),
        }
    }

    /// The hops for a burst of addresses, by their first `BITS` bits. Each form of the first level has a loop of its
    /// own, which loads the addresses of that form's parts once.
    fn hops_by<const BITS: u8>(&self, addresses: &[u32], hops: &mut [NextHop])
        requires bits { self.now.bits ≡ BITS }
        requires long { length addresses.now ≡ length hops.old }
        ensures { hops.new ≡ map (λ address. hop_of (entry_for self.now address)) addresses.now }
    {
        match &self.first {
            FirstLevel::Whole(entries) => {
                self.hops_in_whole::<BITS>(entries.as_slice(), addresses, hops)
            }
            FirstLevel::Sparse(blocks) => {
                let (offsets, uniform, places) = blocks.parts();
                self.hops_in_blocks::<BITS>(offsets, uniform, places, addresses, hops)
            }
        }
    }

    /// The hops for a burst, over a first level whose entries are one after another.
    fn hops_in_whole<const BITS: u8>(
        &self,
        entries: &[PackedEntry],
        addresses: &[u32],
        hops: &mut [NextHop],
    )
        requires bits { self.now.bits ≡ BITS }
        requires form { (BITS ≡ 16) ⊎ (BITS ≡ 24) }
        requires entries { entries.now ≡ self.now.first }
        requires all { length entries.now ≡ 2 ^ BITS }
        requires long { length addresses.now ≡ length hops.old }
        ensures { hops.new ≡ map (λ address. hop_of (entry_for self.now address)) addresses.now }
    {
        for i in 0..addresses.len() {
            let address = addresses[i];
            let entry = entries[first_of(address, BITS)];
            hops[i] = self.entry_below::<BITS>(entry, address).next_hop();
        }
    }

    /// The hops for a burst, over a first level whose entries are in blocks with these parts.
    fn hops_in_blocks<const BITS: u8>(
        &self,
        offsets: &[u32],
        uniform: &[PackedEntry],
        places: &[PackedEntry],
        addresses: &[u32],
        hops: &mut [NextHop],
    )
        requires bits { self.now.bits ≡ BITS }
        requires form { (BITS ≡ 16) ⊎ (BITS ≡ 24) }
        requires are { HasBlocks offsets.now uniform.now places.now }
        requires entries { entries_of (numbers_of offsets.now) uniform.now places.now ≡ self.now.first }
        requires all { length self.now.first ≡ 2 ^ BITS }
        requires long { length addresses.now ≡ length hops.old }
        ensures { hops.new ≡ map (λ address. hop_of (entry_for self.now address)) addresses.now }
    {
        for i in 0..addresses.len() {
            let address = addresses[i];
            let entry = entry_at(offsets, uniform, places, first_of(address, BITS));
            hops[i] = self.entry_below::<BITS>(entry, address).next_hop();
        }
    }

    /// The entry at one place of a group.
    pub fn in_group(&self, group: u32, low: usize) -> PackedEntry
        requires used { (first : ℕ) × (first < 2 ^ self.now.bits) × (is_group (first_at self.now first) ≡ true)
            × ((first_at self.now first).number ≡ group) }
        requires place { low < size_of self.now.bits }
        ensures { result ≡ grouped_at self.now group low }
    {
        self.groups[place(group, low, self.bits)]
    }

    /// A first-level entry. If it names a group, no other entry names the same one.
    pub fn first(&self, first: usize) -> PackedEntry
        requires { first < 2 ^ self.now.bits }
        ensures value { result ≡ first_at self.now first }
        ensures below { is_group result ≡ true → result.number < self.now.limit }
        ensures alone { is_group result ≡ true
            → (other : ℕ) → is_group (first_at self.now other) ≡ true
            → (first_at self.now other).number ≡ result.number → other ≡ first }
    {
        self.first.at(first)
    }
}
