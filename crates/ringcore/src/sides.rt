//! Comparing rings and sides.

ghost use Rattle.std.specs.Prelude.{◌≡◌, ◌↔◌, IsTrue};
ghost use Rattle.ringcore_laws.specs.Party.{is_on as stands_on, same_side as is_same_side};
ghost use Rattle.ringcore.specs.Runs.{IsOnRing};

use geom::Side;
use ringcore_laws::Step;

/// Whether the first ring and side are the same as the second.
pub fn is_on(ring: usize, side: Side, number: usize, wanted: Side) -> bool
    ensures { result ≡ stands_on ring side number wanted }
{
    ring == number && same_side(side, wanted)
}

fn same_side(side: Side, wanted: Side) -> bool
    ensures { result ≡ is_same_side side wanted }
{
    match (side, wanted) {
        (Side::Put, Side::Put) => true,
        (Side::Take, Side::Take) => true,
        _ => false,
    }
}

/// Whether the ring of a step is below `rings`.
pub fn is_among(step: &Step, rings: usize) -> bool
    ensures { IsTrue result ↔ IsOnRing rings step.now }
{
    match step {
        Step::Look(ring, _) => *ring < rings,
        Step::Room(ring, _) => *ring < rings,
        Step::Reserve(ring, _, _, _) => *ring < rings,
        Step::SettlePut(ring, _) => *ring < rings,
        Step::SettleTake(ring, _) => *ring < rings,
        Step::Stash(_) | Step::Unstash(_) => true,
    }
}
