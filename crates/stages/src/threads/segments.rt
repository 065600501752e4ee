//! Segments not in use: linking them to a chain, and taking them off one.
ghost use Rattle.std.specs.Prelude.{◌≡◌, ◌+◌, ℕ, IfOk, IfSome, [], length};
ghost use Rattle.std.specs.List.{flat_map};
ghost use Rattle.burst.specs.Numbers.{AreDistinct};
ghost use Rattle.mbuf.specs.Chain.{numbers_of};
ghost use Rattle.ringcore_laws.specs.FreeRings.{AreSingle};
ghost use Rattle.stages.specs.Custody.{HoldsAll, in_chain, in_items};
ghost use Rattle.stages.specs.Numbers.{item_numbers};

use crate::stage_fault::StageFault;
use crate::threads::item::RingItem;
use crate::threads::ring_access::RingAccess;
use crate::threads::rings::{FREE, SPAN};
use burst::Burst;
use mbuf::Chain;
use stages_laws::Run;
use std::sync::Wait;
use std::time::Clock;

/// The chain of a free segment. Errors: `Window`, if the item isn't one.
pub(crate) fn free_chain<J: Run>(item: RingItem<J>) -> Result<Chain, StageFault>
    ensures same { IfOk result (λ chain. numbers_of chain ≡ item_numbers item) }
{
    match item {
        RingItem::Free(segment) => Ok(segment.chain),
        _ => Err(StageFault::Window),
    }
}

/// Links free segments, from the first on, to one chain. `None` if there are none, or one of them isn't free.
pub(crate) fn link<J: Run>(got: &mut Burst<RingItem<J>, SPAN>) -> Option<Chain>
    requires apart { AreDistinct (flat_map item_numbers got.old) }
    ensures same { IfSome result (λ chain. (b : ℕ) → in_chain chain b ≡ in_items got.old b) }
{
    let Some(RingItem::Free(last)) = got.pop() else {
        return None;
    };
    let mut whole = last.chain;
    while let Some(item) = got.pop() {
        let RingItem::Free(segment) = item else {
            return None;
        };
        match segment.chain.chain(whole) {
            Ok(linked) => whole = linked,
            Err(_) => return None,
        }
    }
    Some(whole)
}

/// Appends the segments of a packet to those that are to be freed, which are freed if the list has no room for more.
/// After an error the rest of these are lost.
// inlined, so that the chain isn't passed through memory
#[inline(always)]
pub(crate) fn release<J: Run, R: Wait + Clock>(
    rt: &R,
    access: &mut RingAccess<'_, RingItem<J>>,
    chain: Chain,
    free: &mut Burst<RingItem<J>, SPAN>,
) -> Result<(), StageFault>
    requires yours { HoldsAll item_numbers access.old.hand (λ b. in_items free.old b + in_chain chain b) }
    requires single { AreSingle item_numbers free.old }
    ensures single { AreSingle item_numbers free.new }
    ensures kept { (others : ℕ → ℕ)
        → HoldsAll item_numbers access.old.hand (λ b. in_items free.old b + (in_chain chain b + others b))
        → HoldsAll item_numbers access.new.hand (λ b. in_items free.new b + others b) }
{
    let mut rest = Some(chain);
    while let Some(chain) = rest {
        let (segment, others) = chain.take_first();
        rest = others;
        if free.is_full() {
            give_back(rt, access, free)?;
        }
        free.push(RingItem::free(segment));
    }
    Ok(())
}

/// Frees segments, and leaves the list empty.
pub(crate) fn give_back<J: Run, R: Wait + Clock>(
    rt: &R,
    access: &mut RingAccess<'_, RingItem<J>>,
    free: &mut Burst<RingItem<J>, SPAN>,
) -> Result<(), StageFault>
    requires yours { HoldsAll item_numbers access.old.hand (in_items free.old) }
    requires single { AreSingle item_numbers free.old }
    ensures none { free.new ≡ [] }
    ensures kept { (others : ℕ → ℕ)
        → HoldsAll item_numbers access.old.hand (λ b. in_items free.old b + others b)
        → HoldsAll item_numbers access.new.hand others }
{
    let given = access.send(rt, FREE, free);
    free.clear();
    given
}
