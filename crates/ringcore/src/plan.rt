//! The plan of a world, and when it may be opened.

ghost use Rattle.std.specs.Prelude.{◌≡◌, ◌↔◌, IsTrue, nat_lt};
ghost use Rattle.std.specs.List.{list_all};
ghost use Rattle.ringcore_laws.specs.Runs.{IsPlan};
ghost use Rattle.ringcore.specs.Fault.{number_of};
ghost use Rattle.ringcore.specs.Opening.{AreFew};

use geom::{MAX_ACTORS, MAX_CAPACITY, MAX_RINGS, RingPlan, all_fit};
use thiserror::Error;

/// The maximum number of buffers, as a `usize`.
const MAX_BUFFERS: usize = geom::MAX_BUFFERS as usize;

/// Why a world was not opened.
#[derive(Clone, Copy, Debug, PartialEq, Eq, Error)]
pub enum WorldFault {
    /// There was no memory for the rings, the actors or the entries of the buffers.
    #[error("Memory")]
    Memory = 1,
    /// The plan may not be opened: a number is out of its range, a gift names no actor, or the buffers don't fit into a
    /// free ring.
    #[error("BadPlan")]
    BadPlan = 2,
}

impl WorldFault {
    /// 1 `Memory`, 2 `BadPlan`.
    pub fn number(self) -> u8
        ensures { result ≡ number_of self }
    {
        self as u8
    }
}

/// The plan of a world.
#[derive(Drop)]
pub struct WorldPlan {
    /// The rings, numbered from 0: 1 to 64.
    pub rings: Vec<RingPlan>,
    /// The number of actors: 1 to 64.
    pub actors: usize,
    /// For each buffer b, from 0 on, the actor that holds it at the opening: at most 65,536 entries.
    pub gifts: Vec<usize>,
}

impl WorldPlan {
    /// Whether a world of this plan may be opened: the numbers of rings, actors and buffers are in their ranges, each
    /// gift names an actor, and all buffers fit into each free ring.
    pub fn is_valid(&self) -> bool
        ensures { IsTrue result ↔ IsPlan self.now.rings.items self.now.actors self.now.gifts.items }
    {
        if !are_few(self.rings.len(), self.actors, self.gifts.len()) {
            return false;
        }
        if !are_below(&self.gifts, self.actors) {
            return false;
        }
        all_fit(&self.rings, self.gifts.len() as u64, MAX_CAPACITY)
    }
}

fn are_few(rings: usize, actors: usize, buffers: usize) -> bool
    ensures { IsTrue result ↔ AreFew rings actors buffers }
{
    let some = rings > 0 && actors > 0;
    some && rings <= MAX_RINGS && actors <= MAX_ACTORS && buffers <= MAX_BUFFERS
}

fn are_below(gifts: &[usize], actors: usize) -> bool
    ensures { result ≡ list_all (λ g. nat_lt g actors) gifts.now }
{
    gifts.iter().all(|g| *g < actors)
}
