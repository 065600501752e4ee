//! Shares of packets. A share mentions every segment of a chain and shows some of its bytes; a segment is returned when
//! the last share that mentions it ends (DPDK Programmer's Guide, "Mbuf Library", indirect buffers). A deck belongs to
//! one worker: it has no lock, and its counts are plain numbers. As written, only `share` and `again` take memory, from
//! the allocator given to `new`. No clause states this for the other calls; a test makes them while every request is
//! refused.
ghost use Rattle.std.specs.Prelude.{◌≡◌, ◌+◌, ◌<◌, [], Some, IsNone, IfSome, IfOk, IfErr};
ghost use Rattle.std.specs.Prelude.{OnOk, OnErr};
ghost use Rattle.std.specs.Result.{result_err};
ghost use Rattle.mbuf.specs.Chain.{numbers_of, bytes_of, HasSameSegments, filled};
ghost use Rattle.mbuf.specs.Deck.{AreUnmentioned, IfShare, share_of, shared, again, narrowed, added, on_live, at_id};
ghost use Rattle.mbuf.specs.Deck.{without, freed_by};
ghost use Rattle.mbuf.specs.Deck.{share_refusal, again_refusal, cut_refusal, release_refusal, copy_refusal};

use crate::chain::Chain;
use crate::fault::DeckFault;
use crate::share_table::ShareTable;
use burst::Burst;
use std::alloc::Global;
use std::marker::Model;

/// The live shares of one worker.
#[derive(Drop)]
pub struct Deck {
    table: ShareTable,
    next: u32,
}

impl Model for Deck {
    ghost use Rattle.mbuf.specs.Deck.{Shares, HasIds};

    ghost Value = { Shares };

    ghost view = { λ deck. record { next = deck.next; live = deck.table } };

    ghost invariant = { λ deck. HasIds deck.next deck.table };
}

impl Deck {
    /// A deck without shares.
    pub fn new(alloc: Global) -> Deck
        ensures { result ≡ record { next = 0; live = [] } }
    {
        Deck {
            table: ShareTable::new(alloc),
            next: 0,
        }
    }

    /// Makes a share of `chain`: it mentions each of its segments and shows all of its bytes. Ids count up from 0 and
    /// aren't reused. Requires: no live share mentions any of its segments.
    ///
    /// Errors, in this order: 7 `NoId` after 2^32 - 1 ids, 6 `Memory`. The chain is then handed back, and the deck is
    /// unchanged.
    pub fn share(&mut self, chain: Chain) -> Result<u32, (Chain, DeckFault)>
        requires unmentioned { AreUnmentioned (numbers_of chain) self.old.live }
        ensures id { IfOk result (λ id. id ≡ self.old.next) }
        ensures done { OnOk result (self.new ≡ added (shared self.old.next chain) self.old) }
        ensures refused { IfSome (share_refusal self.old) (λ fault. result ≡ Err (chain, fault)) }
        ensures memory { IsNone (share_refusal self.old) → IfErr result (λ back. back ≡ (chain, DeckFault.Memory)) }
        ensures unchanged { OnErr result (self.new ≡ self.old) }
    {
        if self.next == u32::MAX {
            return Err((chain, DeckFault::NoId));
        }
        let id = self.next;
        if let Err(chain) = self.table.add(id, chain) {
            return Err((chain, DeckFault::Memory));
        }
        self.next = id + 1;
        Ok(id)
    }

    /// Makes another share with the mentions and the bytes that share `id` has now.
    ///
    /// Errors, in this order: 5 `NoSuchShare` if no live share has this id, 7 `NoId` after 2^32 - 1 ids, 6 `Memory`.
    /// The deck is then unchanged.
    pub fn again(&mut self, id: u32) -> Result<u32, DeckFault>
        ensures id { IfOk result (λ new. new ≡ self.old.next) }
        ensures done { OnOk result (IfShare id self.old (λ old. self.new ≡ added (again self.old.next old) self.old)) }
        ensures refused { IfSome (again_refusal id self.old) (λ fault. result ≡ Err fault) }
        ensures memory { IsNone (again_refusal id self.old) → IfErr result (λ fault. fault ≡ DeckFault.Memory) }
        ensures unchanged { OnErr result (self.new ≡ self.old) }
    {
        let Some(place) = self.table.place(id) else {
            return Err(DeckFault::NoSuchShare);
        };
        if self.next == u32::MAX {
            return Err(DeckFault::NoId);
        }
        let new = self.next;
        if self.table.again(place, new).is_err() {
            return Err(DeckFault::Memory);
        }
        self.next = new + 1;
        Ok(new)
    }

    /// Narrows share `id` to `n` of its bytes, from its byte `from` on. Its mentions are kept.
    ///
    /// Errors, in this order: 5 `NoSuchShare` if no live share has this id, 3 `TooShort` if it shows too few bytes. The
    /// deck is then unchanged.
    pub fn cut(&mut self, id: u32, from: usize, n: usize) -> Result<(), DeckFault>
        ensures done { OnOk result (self.new ≡ on_live (at_id id (narrowed from n)) self.old) }
        ensures refused { result_err result ≡ cut_refusal id from n self.old }
        ensures unchanged { OnErr result (self.new ≡ self.old) }
    {
        let Some(place) = self.table.place(id) else {
            return Err(DeckFault::NoSuchShare);
        };
        let len = self.table.len(place);
        if from > len || n > len - from {
            return Err(DeckFault::TooShort);
        }
        self.table.narrow(place, from, n);
        Ok(())
    }

    /// Ends share `id`, and puts into `into` the segments whose last mention has gone, in the order of the chain: each
    /// a fresh chain of its own. Requires: `into` is empty.
    ///
    /// Errors: 5 `NoSuchShare` if no live share has this id; the deck is then unchanged, and `into` empty.
    pub fn release_into(&mut self, id: u32, into: &mut Burst<Chain, 64>) -> Result<(), DeckFault>
        requires empty { into.old ≡ [] }
        ensures done { OnOk result (self.new ≡ on_live (without id) self.old) }
        ensures given { OnOk result (into.new ≡ freed_by (share_of id self.old.live) self.new.live) }
        ensures refused { result_err result ≡ release_refusal id self.old }
        ensures unchanged { OnErr result ((self.new ≡ self.old) × (into.new ≡ [])) }
    {
        let Some(place) = self.table.place(id) else {
            return Err(DeckFault::NoSuchShare);
        };
        self.table.release(place, into);
        Ok(())
    }

    /// Like `release_into`, with a new list.
    pub fn release(&mut self, id: u32) -> Result<Burst<Chain, 64>, DeckFault>
        ensures done { OnOk result (self.new ≡ on_live (without id) self.old) }
        ensures given { IfOk result (λ given. given ≡ freed_by (share_of id self.old.live) self.new.live) }
        ensures refused { result_err result ≡ release_refusal id self.old }
        ensures unchanged { OnErr result (self.new ≡ self.old) }
    {
        let mut given = Burst::new();
        self.release_into(id, &mut given)?;
        Ok(given)
    }

    /// Fills `chain` with the bytes of share `id`, from its first segment on. The chain's previous bytes are
    /// overwritten.
    ///
    /// Errors, in this order: 5 `NoSuchShare` if no live share has this id, 2 `NoTailroom` if the bytes are more than
    /// the chain's `space`. The chain is then unchanged.
    pub fn copy_into(&self, id: u32, chain: &mut Chain) -> Result<(), DeckFault>
        ensures done { OnOk result (IfShare id self.now (λ share. chain.new ≡ filled share.bytes chain.old)) }
        ensures packet { OnOk result (IfShare id self.now (λ share. bytes_of chain.new ≡ share.bytes)) }
        ensures kept { HasSameSegments chain.new chain.old }
        ensures refused { result_err result ≡ copy_refusal id chain.old self.now }
        ensures unchanged { OnErr result (chain.new ≡ chain.old) }
    {
        let Some(place) = self.table.place(id) else {
            return Err(DeckFault::NoSuchShare);
        };
        if self.table.len(place) > chain.space() {
            return Err(DeckFault::NoTailroom);
        }
        self.table.copy(place, chain);
        Ok(())
    }
}
