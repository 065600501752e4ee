//! Where a deck stores the packets that its shares show. All shares made from one chain mention the same segments, so
//! the chain is stored once; it is returned as a whole when no share names it any more.
ghost use Rattle.std.specs.Prelude.{◌≡◌, ◌+◌, ◌<◌, ◌≤◌, ◌++◌, [], ◌∷◌, None, length, map, remove, slice_set, IfNone};
ghost use Rattle.std.specs.Prelude.{IfSome, IfErr, OnOk, OnErr};
ghost use Rattle.mbuf.specs.Chain.{numbers_of, bytes_of, HasSameSegments, space_of, singles, filled};
ghost use Rattle.slab.specs.Slab.{SameValues};
ghost use Rattle.std.specs.List.Sorted.{IsNonDecreasing};
ghost use Rattle.burst.specs.Numbers.{AreDistinct};
ghost use Rattle.mbuf.specs.Entries.{IsStored};
ghost use Rattle.mbuf.specs.Deck.{AreUnmentioned, share_of, share_at, StandsAt, shared, again, narrowed, unmentioned};

use crate::chain::Chain;
use crate::entry::{Entry, is_named, place_of};
use burst::Burst;
use slab::Slab;
use std::alloc::{AllocError, Global};
use std::marker::Model;

/// The entries of the shares in the order of their ids, and the packets that they name.
#[derive(Drop)]
pub struct ShareTable {
    entries: Vec<Entry>,
    packets: Slab<Chain>,
}

impl Model for ShareTable {
    ghost use Rattle.std.specs.Prelude.{List};
    ghost use Rattle.mbuf.specs.Deck.{Share};
    ghost use Rattle.mbuf.specs.Entries.{live_of, IsTable};

    ghost Value = { List Share };

    ghost view = { λ table. live_of table.packets table.entries.items };

    ghost invariant = { λ table. IsTable table.packets table.entries.items };
}

/// Stores `chain`, and appends the entry of its share.
fn store(
    entries: &mut Vec<Entry>,
    packets: &mut Slab<Chain>,
    id: u32,
    chain: Chain,
) -> Result<(), Chain>
    ensures stored { OnOk result (IsStored entries.old.items entries.new.items packets.old packets.new id chain) }
    ensures back { IfErr result (λ back. back ≡ chain) }
    ensures unchanged { OnErr result ((entries.new.items ≡ entries.old.items) × SameValues packets.old packets.new) }
{
    if entries.reserve(1).is_err() {
        return Err(chain);
    }
    let len = chain.len();
    match packets.insert(chain) {
        Ok(packet) => {
            let entry = Entry {
                id,
                packet,
                from: 0,
                len,
            };
            entries.push(entry).unwrap();
            Ok(())
        }
        Err(failed) => Err(failed.value),
    }
}

impl ShareTable {
    /// A table without shares.
    pub fn new(alloc: Global) -> ShareTable
        ensures { result ≡ [] }
    {
        ShareTable {
            entries: Vec::new(alloc),
            packets: Slab::new(alloc),
        }
    }

    /// The index of the share with `id`. Requires: each id is above those before it.
    pub fn place(&self, id: u32) -> Option<usize>
        requires distinct { AreDistinct (map (λ share. share.id) self.now) }
        requires rising { IsNonDecreasing (map (λ share. share.id) self.now) }
        ensures absent { IfNone result (share_of id self.now ≡ None) }
        ensures found { IfSome result (StandsAt id self.now) }
    {
        place_of(&self.entries, id)
    }

    /// How many bytes the share at `place` shows.
    pub fn len(&self, place: usize) -> usize
        requires { place < length self.now }
        ensures { result ≡ length (share_at self.now place).bytes }
    {
        self.entries[place].len
    }

    /// Adds a share of `chain`, or hands it back if out of memory.
    pub fn add(&mut self, id: u32, chain: Chain) -> Result<(), Chain>
        requires unmentioned { AreUnmentioned (numbers_of chain) self.old }
        ensures done { OnOk result (self.new ≡ self.old ++ shared id chain ∷ []) }
        ensures back { IfErr result (λ back. back ≡ chain) }
        ensures unchanged { OnErr result (self.new ≡ self.old) }
    {
        if let Err(chain) = store(&mut self.entries, &mut self.packets, id, chain) {
            return Err(chain);
        }
        Ok(())
    }

    /// Adds another share like the one at `place`.
    pub fn again(&mut self, place: usize, id: u32) -> Result<(), AllocError>
        requires { place < length self.old }
        ensures done { OnOk result (self.new ≡ self.old ++ again id (share_at self.old place) ∷ []) }
        ensures unchanged { OnErr result (self.new ≡ self.old) }
    {
        let entry = Entry {
            id,
            ..self.entries[place]
        };
        self.entries.push(entry)?;
        Ok(())
    }

    /// Narrows the share at `place` to `n` of its bytes, from its byte `from` on.
    pub fn narrow(&mut self, place: usize, from: usize, n: usize)
        requires there { place < length self.old }
        requires within { from + n ≤ length (share_at self.old place).bytes }
        ensures { self.new ≡ slice_set self.old place (narrowed from n (share_at self.old place)) }
    {
        let entry = self.entries[place];
        self.entries[place] = Entry {
            from: entry.from + from,
            len: n,
            ..entry
        };
    }

    /// Removes the share at `place`, and returns the segments that no share mentions any more.
    pub fn release(&mut self, place: usize, into: &mut Burst<Chain, 64>)
        requires there { place < length self.old }
        requires empty { into.old ≡ [] }
        ensures done { self.new ≡ remove self.old place }
        ensures given { into.new ≡ singles (unmentioned self.new (share_at self.old place).mentions) }
    {
        let entry = self.entries.remove(place);
        if is_named(&self.entries, entry.packet) {
            return;
        }
        self.packets.remove(entry.packet).take_apart(into);
    }

    /// Fills `chain` with the bytes of the share at `place`.
    pub fn copy(&self, place: usize, chain: &mut Chain)
        requires there { place < length self.now }
        requires room { length (share_at self.now place).bytes ≤ space_of chain.old }
        ensures done { chain.new ≡ filled (share_at self.now place).bytes chain.old }
        ensures packet { bytes_of chain.new ≡ (share_at self.now place).bytes }
        ensures kept { HasSameSegments chain.new chain.old }
    {
        let entry = self.entries[place];
        if let Some(packet) = self.packets.get(entry.packet) {
            chain.fill_from(packet, entry.from, entry.len);
        }
    }
}
