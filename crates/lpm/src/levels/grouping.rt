//! The groups: memory for one more, giving an entry a group, and taking it back.

ghost use Rattle.std.specs.Prelude.{◌≡◌, ◌+◌, ◌<◌, ◌^◌, ◌↔◌, ℕ, true, false, if◌then◌else◌, OnOk, OnErr, IfErr, IsTrue};
ghost use Rattle.std.specs.Prelude.{◌⊎◌};
ghost use Rattle.lpm.specs.TableEntry.{is_group};
ghost use Rattle.lpm.specs.TwoLevels.{first_at, entry_at, used_of, Grows, Regroups};
ghost use Rattle.lpm.specs.Prefixes.{size_of};

use super::Levels;
use crate::fault::RouteFault;
use crate::overwrite::fill;
use crate::packed_entry::PackedEntry;
use crate::places::{place, size};
use std::alloc::AllocError;

impl Levels {
    /// Makes sure that a group is free, taking memory for one more if none is.
    fn make_room(&mut self) -> Result<(), AllocError>
        requires within { used_of self.old < self.old.limit }
        requires fewer { used_of self.old < 2 ^ self.old.bits }
        ensures room { OnOk result (0 < self.new.free) }
        ensures ok { OnOk result (Grows self.old self.new) }
        ensures err { OnErr result (self.new ≡ self.old) }
    {
        if !self.free.is_empty() {
            return Ok(());
        }
        let made = self.made();
        let length = self.groups.len() + size(self.bits);
        self.free.reserve(made + 1)?;
        self.groups.resize(length, PackedEntry::none())?;
        self.free.push_reserved(made as u32);
        Ok(())
    }

    /// Gives an entry a free group, with the entry's content in each of its places.
    fn open_group(&mut self, first: usize)
        requires first { first < 2 ^ self.old.bits }
        requires plain { is_group (first_at self.old first) ≡ false }
        requires room { 0 < self.old.free }
        ensures used { used_of self.new ≡ used_of self.old + 1 }
        ensures opens { Regroups self.old self.new first true }
    {
        let group = self.free.pop().unwrap();
        let start = place(group, 0, self.bits);
        let end = place(group, size(self.bits), self.bits);
        fill(&mut self.groups, start, end, self.first.at(first));
        self.first.set(first, PackedEntry::group(group));
    }

    /// Takes back the group of an entry, if all of its places have the same content.
    pub fn close_group(&mut self, first: usize)
        requires first { first < 2 ^ self.old.bits }
        requires grouped { is_group (first_at self.old first) ≡ true }
        requires plain { is_group (entry_at self.old first 0) ≡ false }
        requires alike { (low : ℕ) → low < size_of self.old.bits
            → entry_at self.old first low ≡ entry_at self.old first 0 }
        ensures used { used_of self.new + 1 ≡ used_of self.old }
        ensures closes { Regroups self.old self.new first false }
    {
        let group = self.first.at(first).number();
        let entry = self.in_group(group, 0);
        self.first.set(first, entry);
        self.free.push_reserved(group);
    }

    /// Makes sure that the entry has a group, or that one is free for it. Errors: 3 `NoGroup` if the maximum number of
    /// groups is in use for other entries, 4 `Memory`. An error changes nothing.
    pub fn reserve_group(&mut self, first: usize) -> Result<(), RouteFault>
        requires { first < 2 ^ self.old.bits }
        ensures ok { OnOk result (Grows self.old self.new) }
        ensures room { OnOk result (is_group (first_at self.old first) ≡ false → 0 < self.new.free) }
        ensures within { OnOk result (is_group (first_at self.old first) ≡ false → used_of self.old < self.old.limit) }
        ensures no_group { (result ≡ Err RouteFault.NoGroup)
            ↔ ((is_group (first_at self.old first) ≡ false) × (used_of self.old ≡ self.old.limit)) }
        ensures others { IfErr result (λ fault. (fault ≡ RouteFault.NoGroup) ⊎ (fault ≡ RouteFault.Memory)) }
        ensures err { OnErr result (self.new ≡ self.old) }
    {
        if self.first.at(first).is_group() {
            return Ok(());
        }
        if self.is_full() {
            return Err(RouteFault::NoGroup);
        }
        match self.make_room() {
            Ok(()) => Ok(()),
            Err(_) => Err(RouteFault::Memory),
        }
    }

    /// Whether the entry has no group, and the maximum number of groups is in use for other entries.
    pub fn lacks_group(&self, first: usize) -> bool
        requires { first < 2 ^ self.now.bits }
        ensures { IsTrue result ↔ ((is_group (first_at self.now first) ≡ false) × (used_of self.now ≡ self.now.limit)) }
    {
        !self.first.at(first).is_group() && self.is_full()
    }

    /// Gives the entry a group, if it has none.
    pub fn ensure_group(&mut self, first: usize)
        requires first { first < 2 ^ self.old.bits }
        requires room { is_group (first_at self.old first) ≡ false → 0 < self.old.free }
        ensures used { used_of self.new ≡ used_of self.old + (if is_group (first_at self.old first) then 0 else 1) }
        ensures opens { Regroups self.old self.new first true }
    {
        if !self.first.at(first).is_group() {
            self.open_group(first);
        }
    }
}
