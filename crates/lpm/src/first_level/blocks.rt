//! First-level entries in blocks. A block that no route has covered in part takes 8 bytes.

ghost use Rattle.std.specs.Prelude.{◌≡◌, ◌+◌, ◌*◌, ◌%◌, ◌≤◌, ◌<◌, ◌^◌, ◌⊎◌, length, replicate, slice_index_or, slice_set};
ghost use Rattle.std.specs.Prelude.{vec_len, vec_capacity, IfOk, IsTrue, false};
ghost use Rattle.lpm.specs.TableEntry.{entry_of};
ghost use Rattle.lpm.specs.Blocks.{entries_of, numbers_of, AreBlocks, HasBlocks};
ghost use Rattle.lpm.specs.Overwrite.{AreNoGroups, OverwritesFrom};

use crate::packed_entry::PackedEntry;
use std::alloc::{AllocError, Global};
use std::marker::Model;

/// How many entries a block has. With fewer, `offsets` and `uniform` are longer; with more, a route that covers part of
/// a block writes more entries.
pub const BLOCK: usize = 256;

/// Entries, as many as a first level has. A block gets memory of its own when one of its entries is overwritten alone,
/// and keeps it. Until then it takes two words and no more, since the operating system gives a page memory when it is
/// first written.
#[derive(Drop)]
pub struct Blocks {
    /// For each block: what to add to the number of one of its entries, modulo 2^32, for the entry's place in `places`.
    /// So a read takes one addition. Blocks without places of their own share the first block there, which has no
    /// routes.
    offsets: Vec<u32>,
    /// For each block the entry that all of its entries have, or none if they have places of their own.
    uniform: Vec<PackedEntry>,
    /// Block after block, in the order in which they were first written. There is room for all of them.
    places: Vec<PackedEntry>,
}

impl Model for Blocks {
    ghost use Rattle.std.specs.Prelude.{List, vec_capacity};
    ghost use Rattle.lpm.specs.TableEntry.{TableEntry};
    ghost use Rattle.lpm.specs.Blocks.{entries_of, numbers_of, AreBlocks};

    ghost Value = { List TableEntry };

    ghost view = { λ b. entries_of (numbers_of b.offsets.items) b.uniform.items b.places.items };

    ghost invariant = { λ b. AreBlocks b.offsets.items b.uniform.items b.places.items (vec_capacity b.places) };
}

impl Blocks {
    /// 2^`bits` entries without a route. All of their memory is reserved here. One block of it is written, and two
    /// words for each block.
    pub fn new(alloc: Global, bits: u8) -> Result<Blocks, AllocError>
        requires { (bits ≡ 16) ⊎ (bits ≡ 24) }
        ensures { IfOk result (λ b. b ≡ replicate (2 ^ bits) (entry_of 0 0)) }
    {
        let count = (1usize << bits) / BLOCK;
        let mut offsets = Vec::with_capacity(alloc, count)?;
        for block in 0..count {
            offsets.push_reserved(((block * BLOCK) as u32).wrapping_neg());
        }
        let mut uniform = Vec::with_capacity(alloc, count)?;
        uniform.resize(count, PackedEntry::none())?;
        let mut places = Vec::with_capacity(alloc, (count + 1) * BLOCK)?;
        places.resize(BLOCK, PackedEntry::none())?;
        Ok(Blocks {
            offsets,
            uniform,
            places,
        })
    }

    /// One entry.
    #[inline(always)]
    pub fn at(&self, first: usize) -> PackedEntry
        requires { first < length self.now }
        ensures { result ≡ slice_index_or self.now first (entry_of 0 0) }
    {
        let (offsets, uniform, places) = self.parts();
        entry_at(offsets, uniform, places, first)
    }

    /// The parts, for `entry_at`: a loop that reads entries loads their addresses once.
    #[inline(always)]
    pub fn parts(&self) -> (&[u32], &[PackedEntry], &[PackedEntry])
        ensures are { HasBlocks result.0.now result.1.now result.2.now }
        ensures same { entries_of (numbers_of result.0.now) result.1.now result.2.now ≡ self.now }
    {
        (
            self.offsets.as_slice(),
            self.uniform.as_slice(),
            self.places.as_slice(),
        )
    }

    /// Overwrites one entry. Takes no memory.
    pub fn set(&mut self, first: usize, entry: PackedEntry)
        requires { first < length self.old }
        ensures { self.new ≡ slice_set self.old first entry }
    {
        // read for the proof: an entry of depth 0 has no hop
        let _none = entry.is_none();
        let offset = own_block(
            &mut self.offsets,
            &mut self.uniform,
            &mut self.places,
            first / BLOCK,
        );
        self.places[offset.wrapping_add(first as u32) as usize] = entry;
    }

    /// Writes `entry` to those entries of the block that begins with this one whose depth is at most `depth`, in one
    /// step, and returns true; or returns false and changes nothing. It returns true only if the block has one entry
    /// for all of them, which names no group; the contract allows false then, too. Takes no memory.
    pub fn overwrite_block(&mut self, first: usize, depth: u8, entry: PackedEntry) -> bool
        requires { first + 256 ≤ length self.old }
        ensures done { IsTrue result → OverwritesFrom self.old self.new first (first + 256) depth entry }
        ensures plain { IsTrue result → AreNoGroups self.old first (first + 256) }
        ensures long { length self.new ≡ length self.old }
        ensures kept { result ≡ false → self.new ≡ self.old }
    {
        let block = first / BLOCK;
        if first % BLOCK != 0 {
            return false;
        }
        if self.offsets[block].wrapping_add(first as u32) != 0 {
            return false;
        }
        let old = self.uniform[block];
        if old.is_group() {
            return false;
        }
        if old.depth() > depth {
            return true;
        }
        self.uniform[block] = entry;
        true
    }
}

/// One entry of the blocks that have these parts.
#[inline(always)]
pub fn entry_at(
    offsets: &[u32],
    uniform: &[PackedEntry],
    places: &[PackedEntry],
    first: usize,
) -> PackedEntry
    requires are { HasBlocks offsets.now uniform.now places.now }
    requires there { first < length (entries_of (numbers_of offsets.now) uniform.now places.now) }
    ensures { result
        ≡ slice_index_or (entries_of (numbers_of offsets.now) uniform.now places.now) first (entry_of 0 0) }
{
    let block = first / BLOCK;
    let entry = places[offsets[block].wrapping_add(first as u32) as usize];
    if entry.is_none() {
        uniform[block]
    } else {
        entry
    }
}

/// The offset of a block, which gets places of its own if it shares the first ones. Takes no memory.
fn own_block(
    offsets: &mut Vec<u32>,
    uniform: &mut Vec<PackedEntry>,
    places: &mut Vec<PackedEntry>,
    block: usize,
) -> u32
    requires are { AreBlocks offsets.old.items uniform.old.items places.old.items (vec_capacity places.old) }
    requires there { block < vec_len offsets.old }
    ensures are { AreBlocks offsets.new.items uniform.new.items places.new.items (vec_capacity places.new) }
    ensures same { entries_of (numbers_of offsets.new.items) uniform.new.items places.new.items
        ≡ entries_of (numbers_of offsets.old.items) uniform.old.items places.old.items }
    ensures long { vec_len offsets.new ≡ vec_len offsets.old }
    ensures offset { result ≡ slice_index_or offsets.new.items block 0 }
    ensures own { 0 < (result + block * 256) % 4294967296 }
{
    let start = (block * BLOCK) as u32;
    let offset = offsets[block];
    if offset.wrapping_add(start) != 0 {
        return offset;
    }
    let place = places.len();
    let entry = uniform[block];
    // read for the proof: an entry of depth 0 has no hop
    let _none = entry.is_none();
    let Ok(()) = places.resize(place + BLOCK, entry) else {
        unreachable!();
    };
    uniform[block] = PackedEntry::none();
    let offset = (place as u32).wrapping_sub(start);
    offsets[block] = offset;
    offset
}
