//! The rings of a run in threads, and the segments on them.
ghost use Rattle.std.specs.Prelude.{◌≡◌, IfSome};
ghost use Rattle.fabric.specs.Hands.{IsHandOf, rings_of};
ghost use Rattle.stages.specs.Passing.{AreRings, AreAsked};

use crate::threads::item::RingItem;
use fabric::{Fabric, Opened};
use geom::{Geometry, Mode, RingPlan};
use mbuf::make;
use settings::Settings;
use stages_laws::Run;
use std::alloc::Global;

/// The maximum number of items of one span on the rings.
pub const SPAN: usize = 256;

/// The ring of segments not in use.
pub const FREE: usize = 0;

/// The ring of packets before their verdict.
pub const INPUT: usize = 1;

/// The ring of packets after their verdict.
pub const OUTPUT: usize = 2;

/// The rings: free segments; packets before their verdict, at which workers peek; packets after it. `None` if out of
/// memory.
fn plans(alloc: Global, settings: &Settings) -> Option<Vec<RingPlan>>
    ensures rings { IfSome result (λ rings. AreRings rings.items) }
    ensures asked { IfSome result (λ rings. AreAsked settings.now.buffers settings.now.ring rings.items) }
{
    let free = Geometry::exact(settings.buffers as u64).ok()?;
    let geometry = Geometry::exact(settings.ring as u64).ok()?;
    let input = RingPlan {
        geometry,
        put: Mode::Multi,
        take: Mode::Hts,
        free: false,
    };
    let output = RingPlan::same_mode(geometry, Mode::Multi, false);
    Vec::from_slice(
        alloc,
        &[RingPlan::same_mode(free, Mode::Multi, true), input, output],
    )
    .ok()
}

/// The segments, each as an item of the ring of free ones. `None` if out of memory.
fn segments<J: Run>(alloc: Global, settings: &Settings) -> Option<Vec<RingItem<J>>> {
    let room = settings.room as usize;
    let chains = make(alloc, settings.buffers, settings.headroom as usize, room).ok()?;
    let mut list = Vec::with_capacity(alloc, chains.len()).ok()?;
    for chain in chains {
        if chain.segments() != 1 {
            return None;
        }
        list.push(RingItem::free(chain)).ok()?;
    }
    Some(list)
}

/// The rings, all empty, the segments, and a hand that has them all. `None` if out of memory.
pub(crate) fn open_rings<J: Run>(
    alloc: Global,
    settings: &Settings,
) -> Option<Opened<RingItem<J>, SPAN>>
    ensures { IfSome result (λ o. IsHandOf o.fabric o.hand × AreRings (rings_of o.fabric)) }
{
    let plans = plans(alloc, settings)?;
    let list = segments(alloc, settings)?;
    match Fabric::new(alloc, plans, settings.buffers, list) {
        Ok(opened) => Some(opened),
        Err(_) => None,
    }
}
