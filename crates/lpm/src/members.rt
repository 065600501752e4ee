//! The members of a table in a search tree, so a member is found, added or removed without visiting all others.

ghost use Rattle.std.specs.Prelude.{◌≡◌, ℕ, ◌≤◌, ◌<◌, ◌-◌, OnOk, OnErr, IfErr, IfSome, IfNone, IsSome};
ghost use Rattle.std.specs.FinMap as map;
ghost use Rattle.std.specs.Bool.{OnTrue, OnFalse};
ghost use Rattle.std.specs.BTreeMap.Range.{IsLeBy};
ghost use Rattle.lpm.specs.declared.prefix.Prefix.{Prefix};
ghost use Rattle.lpm.specs.Prefixes.{AreMembers, first_bits, prefix_cmp};
ghost use Rattle.lpm.specs.Between.{SomeBetween, NoneBetween};
ghost use Rattle.lpm.specs.Match.{longest};
ghost use Rattle.lpm.specs.Groups.{has_deeper};
ghost use Rattle.lpm.specs.Listing.{IsFirstFrom, NoneFrom};

use crate::fault::RouteFault;
use crate::packed_entry::PackedEntry;
use crate::prefix::Prefix;
use std::alloc::Global;
use std::collections::BTreeMap;
use std::marker::Model;

/// Prefixes and their next hops.
#[derive(Drop)]
pub struct Members {
    hops: BTreeMap<Prefix, u32>,
}

impl Model for Members {
    ghost use Rattle.std.specs.FinMap as map;
    ghost use Rattle.std.specs.Coded.{coded_ℕ};
    ghost use Rattle.lpm.specs.Prefixes.{prefix_cmp, prefix_code};
    ghost use Rattle.std.specs.Prelude.{ℕ};

    ghost Value = { map.FinMap prefix_cmp ℕ };

    ghost coded = { map.code prefix_code coded_ℕ };

    ghost view = { λ a. map.from_entries a.hops.entries };
}

impl Members {
    /// No members. Takes no memory.
    pub fn new(alloc: Global) -> Members
        ensures { result ≡ map.empty }
    {
        Members {
            hops: BTreeMap::new(alloc),
        }
    }

    /// The hop of the member with exactly this prefix.
    pub fn get(&self, prefix: Prefix) -> Option<u32>
        ensures { result ≡ map.get self.now prefix }
    {
        self.hops.get(&prefix).copied()
    }

    /// Adds a member, or changes its hop. The only error is 4 `Memory`.
    pub fn insert(&mut self, prefix: Prefix, hop: u32) -> Result<(), RouteFault>
        ensures ok { OnOk result (self.new ≡ map.insert self.old prefix hop) }
        ensures err { OnErr result (self.new ≡ self.old) }
        ensures memory { IfErr result (λ fault. fault ≡ RouteFault.Memory) }
    {
        let Ok(_) = self.hops.insert(prefix, hop) else {
            return Err(RouteFault::Memory);
        };
        Ok(())
    }

    /// Removes a member. The only error is 5 `NoRoute`.
    pub fn remove(&mut self, prefix: Prefix) -> Result<(), RouteFault>
        ensures ok { OnOk result (self.new ≡ map.remove self.old prefix) }
        ensures was { OnOk result (IsSome (map.get self.old prefix)) }
        ensures missing { OnErr result (map.get self.old prefix ≡ None) }
        ensures fault { IfErr result (λ fault. fault ≡ RouteFault.NoRoute) }
        ensures err { OnErr result (self.new ≡ self.old) }
    {
        let Some(_) = self.hops.remove(&prefix) else {
            return Err(RouteFault::NoRoute);
        };
        Ok(())
    }

    /// The longest member of at most this depth that covers the address, as an entry.
    pub fn longest(&self, address: u32, depth: u8) -> PackedEntry
        requires depth { depth ≤ 32 }
        requires members { AreMembers self.now }
        ensures { result ≡ longest self.now address depth }
    {
        let mut tried = depth;
        while tried > 0 {
            if let Some(hop) = self.get(Prefix::of(address, tried)) {
                return PackedEntry::route(tried, hop);
            }
            tried -= 1;
        }
        PackedEntry::none()
    }

    /// How many members there are.
    pub fn len(&self) -> usize
        ensures { result ≡ map.len self.now }
    {
        self.hops.len()
    }

    /// The first member that is not before `low`, with its hop.
    pub fn first_from(&self, low: Prefix) -> Option<(Prefix, u32)>
        ensures found { IfSome result (λ p. IsFirstFrom self.now low p.0 p.1) }
        ensures none { IfNone result (NoneFrom self.now low) }
    {
        match self.hops.range(low..).next() {
            Some((prefix, hop)) => Some((*prefix, *hop)),
            None => None,
        }
    }

    /// Whether a member is between two prefixes, inclusive.
    fn has_between(&self, low: Prefix, high: Prefix) -> bool
        requires { IsLeBy prefix_cmp low high }
        ensures found { OnTrue result (SomeBetween self.now low high) }
        ensures none { OnFalse result (NoneBetween self.now low high) }
    {
        self.hops.range(low..=high).next().is_some()
    }

    /// Whether a member deeper than `bits` has the address's first `bits` bits.
    pub fn has_deeper(&self, address: u32, bits: u8) -> bool
        requires nonzero { 0 < bits }
        requires most { bits ≤ 24 }
        requires members { AreMembers self.now }
        ensures { result ≡ has_deeper bits self.now (first_bits address bits) }
    {
        let base = Prefix::of(address, bits).address;
        let low = Prefix {
            address: base,
            depth: bits + 1,
        };
        let high = Prefix {
            address: base + ((1u32 << (32 - bits)) - 1),
            depth: 32,
        };
        self.has_between(low, high)
    }
}
