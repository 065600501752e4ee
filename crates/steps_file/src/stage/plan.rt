//! The plan in the first lines of a steps file.

ghost use Rattle.std.specs.Prelude.{true, ◌≡◌, ◌+◌, ◌<◌, ◌≤◌, ℕ, min, length, map, slice_index, slice_index_or, IfOk, IfSome, OnOk, ◌++◌, Err, None, is_some};
ghost use Rattle.std.specs.Option.{unwrap_or};
ghost use Rattle.ringcore.specs.Histories.{AgreesWith, IsRight};
ghost use Rattle.steps_file.specs.Plans.{IsLawful, AreGivenOnce, IsTable, gifts_of, gifts_to, buffer_count, owners};

use crate::command::PlanLine;
use geom::RingPlan;
use ringcore::{World, WorldFault, WorldPlan};
use std::alloc::{AllocError, Global};

/// The maximum number of buffers, in the type of a file's buffer numbers.
const MAX_BUFFERS: u64 = geom::MAX_BUFFERS as u64;

/// What the plan lines so far have named.
#[derive(Drop)]
pub struct Draft {
    pub rings: Vec<RingPlan>,
    /// The number of each `actors` line.
    pub counts: Vec<u64>,
    /// The buffers that were given, each with its actor.
    pub gifts: Vec<(u64, u64)>,
}

impl Draft {
    ghost use Rattle.steps_file.specs.Plans.{named, nothing_named, with_line, opened};

    /// The draft before any line.
    pub fn new(alloc: Global) -> Draft
        ensures { named result ≡ nothing_named }
    {
        Draft {
            rings: Vec::new(alloc),
            counts: Vec::new(alloc),
            gifts: Vec::new(alloc),
        }
    }

    /// Adds a line.
    pub fn add(&mut self, line: PlanLine) -> Result<(), AllocError>
        ensures { OnOk result (named self.new ≡ with_line (named self.old) line) }
    {
        match line {
            PlanLine::Ring(plan) => self.rings.push(plan)?,
            PlanLine::Actors(n) => self.counts.push(n)?,
            PlanLine::Give(actor, buffers) => give(&mut self.gifts, actor, buffers.as_slice())?,
        }
        Ok(())
    }

    /// Opens a world with this plan. Errors: the plan isn't valid as a whole, or out of memory.
    pub fn open(&self, alloc: Global) -> Result<World, WorldFault>
        ensures lawful { OnOk result (IsLawful (named self.now)) }
        ensures opened { IfOk result (λ world. AgreesWith world (opened (named self.now))
            × IsRight (opened (named self.now))) }
        ensures unlawful { result ≡ Err WorldFault.BadPlan → ¬ IsLawful (named self.now) }
    {
        let Some(actors) = only(self.counts.as_slice()) else {
            return Err(WorldFault::BadPlan);
        };
        let gifts = opening_gifts(alloc, self.gifts.as_slice())?;
        let rings = self
            .rings
            .iter()
            .copied()
            .collect(alloc)
            .map_err(|_| WorldFault::Memory)?;
        let plan = WorldPlan {
            rings,
            actors: actors as usize,
            gifts,
        };
        World::new(alloc, plan)
    }
}

/// The one number of a list, if it has exactly one.
fn only(counts: &[u64]) -> Option<u64>
    ensures none { result ≡ None → ¬ (length counts.now ≡ 1) }
    ensures one { IfSome result (λ n. (length counts.now ≡ 1) × (n ≡ slice_index counts.now 0)) }
{
    match counts {
        [n] => Some(*n),
        _ => None,
    }
}

/// Adds buffers that are given to an actor.
fn give(gifts: &mut Vec<(u64, u64)>, actor: u64, buffers: &[u64]) -> Result<(), AllocError>
    ensures { OnOk result (gifts.new.items ≡ gifts.old.items ++ gifts_to actor buffers.now) }
{
    for b in buffers {
        gifts.push((*b, actor))?;
    }
    Ok(())
}

/// The actor that holds each buffer at the start, if the buffers are 0 to n - 1, each given once.
fn opening_gifts(alloc: Global, gifts: &[(u64, u64)]) -> Result<Vec<usize>, WorldFault>
    ensures given { IfOk result (λ g. g.items ≡ gifts_of gifts.now) }
    ensures once { OnOk result (AreGivenOnce gifts.now) }
    ensures bad { result ≡ Err WorldFault.BadPlan → AreGivenOnce gifts.now → buffer_count gifts.now ≤ 65536 → ⊥ }
{
    let count = count_buffers(gifts);
    if count > MAX_BUFFERS {
        return Err(WorldFault::BadPlan);
    }
    let table = owner_table(alloc, gifts, count as usize)?;
    Ok(all_owners(alloc, table.as_slice())?)
}

/// One more than the greatest buffer that is given, up to the maximum number.
fn count_buffers(gifts: &[(u64, u64)]) -> u64
    ensures { result ≡ min (buffer_count gifts.now) 65537 }
{
    let mut count = 0;
    for gift in gifts {
        count = (gift.0.min(MAX_BUFFERS) + 1).max(count);
    }
    count
}

/// The owner of each buffer, if none has two.
fn owner_table(
    alloc: Global,
    gifts: &[(u64, u64)],
    count: usize,
) -> Result<Vec<Option<u64>>, WorldFault>
    requires { buffer_count gifts.now ≤ count }
    ensures table { IfOk result (λ table. IsTable count table.items gifts.now) }
    ensures twice { result ≡ Err WorldFault.BadPlan
        → (b : ℕ) × (b < buffer_count gifts.now) × (1 < length (owners b gifts.now)) }
{
    let mut table = vec![in alloc; None; count].map_err(|_| WorldFault::Memory)?;
    for gift in gifts {
        let b = gift.0 as usize;
        if table[b].is_some() {
            return Err(WorldFault::BadPlan);
        }
        table[b] = Some(gift.1);
    }
    Ok(table)
}

/// The owners of all buffers, if each has one.
fn all_owners(alloc: Global, table: &[Option<u64>]) -> Result<Vec<usize>, WorldFault>
    ensures owners { IfOk result (λ given. given.items ≡ map (λ o. unwrap_or o 0) table.now) }
    ensures all { OnOk result ((b : ℕ) → b < length table.now → is_some (slice_index_or table.now b None) ≡ true) }
    ensures missing { result ≡ Err WorldFault.BadPlan
        → (b : ℕ) × (b < length table.now) × (slice_index_or table.now b None ≡ None) }
{
    let mut given = Vec::new(alloc);
    for owner in table {
        let Some(actor) = owner else {
            return Err(WorldFault::BadPlan);
        };
        if given.push(*actor as usize).is_err() {
            return Err(WorldFault::Memory);
        }
    }
    Ok(given)
}
