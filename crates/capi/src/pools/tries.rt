//! Puts and takes of numbers on rings with head/tail-sync sides, tried a limited number of times.
ghost use Rattle.std.specs.Prelude.{◌≡◌, ◌<◌, ◌+◌, [], length, Err, IfErr, IfOk};
ghost use Rattle.fabric.specs.Hands.{OnRing, rings_of};
ghost use Rattle.fabric.specs.Views.{IsKept};
ghost use Rattle.ringapi.specs.Faults.{IsTransientRefusal};
ghost use Rattle.ringapi.specs.Views.{IsTransient};
ghost use Rattle.pool_laws.specs.Beside.{IsPutByHts, IsTakenByHts};
ghost use Rattle.pool.specs.Locals.{IsLocalOf, SameCache, SameRing, cache_of, view_of};
ghost use Rattle.capi.specs.Tries.{Filled, IsPartOf, Received, Sent, refusal_fault};

use crate::pools::member::{Number, PoolCache, PoolRings};
use crate::rings::{Fault, fault_of};
use fabric::StartFault;
use geom::How;
use ringapi::{Moved, Refusal, is_transient};

/// How often a call tries a ring at most if other threads come first.
const TRIES: u32 = 1024;

/// How many tries a call has left. Each try uses one up, and a call gives up because of other threads only if none is
/// left.
#[derive(Drop)]
pub(crate) struct Tries {
    left: u32,
}

impl Tries {
    /// The tries of a call.
    #[inline]
    pub(crate) fn new() -> Tries
        ensures { result.left ≡ TRIES }
    {
        Tries { left: TRIES }
    }
}

/// The fault for a refused put.
pub(crate) fn refused(why: Refusal) -> Fault
    ensures { result ≡ refusal_fault why }
{
    match why {
        Refusal::Start(why) => fault_of(why),
        Refusal::NotYours => Fault::NotYours,
    }
}

/// One try to put numbers on a ring.
#[inline]
fn try_send(
    f: &PoolRings,
    local: &mut PoolCache,
    ring: usize,
    how: How,
    items: &[Number],
    tries: &mut Tries,
) -> Result<Moved, Refusal>
    requires local { IsLocalOf f.now local.old }
    requires ring { ring < length (rings_of f.now) }
    requires hts { OnRing f.now ring IsPutByHts }
    requires tries { 0 < tries.old.left }
    ensures tries { tries.new.left + 1 ≡ tries.old.left }
    ensures local { IsLocalOf f.now local.new }
    ensures same { SameRing local.old local.new × SameCache local.old local.new }
    ensures sent { Sent f.now how ring (cache_of local.old) items.now local.old local.new result }
    ensures part { IfOk result (λ moved. IsPartOf how (length items.now) moved.count) }
    ensures kept { IfErr result (λ _. IsKept (view_of local.old) (view_of local.new)) }
{
    tries.left -= 1;
    // an arm for each, so that the proof has each answer separately
    match local.try_send_from_slice(f, ring, how, items) {
        Ok(moved) => Ok(moved),
        Err(why) => Err(why),
    }
}

/// Puts numbers on a ring, or none.
#[tactic(auto, using(crate::proofs::Attempts::sent_again))]
pub(crate) fn send(
    f: &PoolRings,
    local: &mut PoolCache,
    ring: usize,
    how: How,
    items: &[Number],
    tries: &mut Tries,
) -> Result<Moved, Refusal>
    requires local { IsLocalOf f.now local.old }
    requires ring { ring < length (rings_of f.now) }
    requires hts { OnRing f.now ring IsPutByHts }
    requires tries { tries.old.left ≡ TRIES }
    ensures tried { IfErr result (λ why. IsTransientRefusal why → tries.new.left ≡ 0) }
    ensures local { IsLocalOf f.now local.new }
    ensures same { SameRing local.old local.new × SameCache local.old local.new }
    ensures sent { Sent f.now how ring (cache_of local.old) items.now local.old local.new result }
    ensures part { IfOk result (λ moved. IsPartOf how (length items.now) moved.count) }
    ensures kept { IfErr result (λ _. IsKept (view_of local.old) (view_of local.new)) }
{
    while tries.left > 1 {
        match try_send(f, local, ring, how, items, tries) {
            Ok(moved) => return Ok(moved),
            Err(why) => {
                if !why.is_transient() {
                    return Err(why);
                }
                std::hint::spin_loop();
            }
        }
    }
    try_send(f, local, ring, how, items, tries)
}

/// One try to take numbers from a ring to the front of an array.
#[inline]
fn try_receive(
    f: &PoolRings,
    local: &mut PoolCache,
    ring: usize,
    how: How,
    into: &mut [Number],
    tries: &mut Tries,
) -> Result<Moved, StartFault>
    requires local { IsLocalOf f.now local.old }
    requires ring { ring < length (rings_of f.now) }
    requires hts { OnRing f.now ring IsTakenByHts }
    requires tries { 0 < tries.old.left }
    ensures tries { tries.new.left + 1 ≡ tries.old.left }
    ensures local { IsLocalOf f.now local.new }
    ensures same { SameRing local.old local.new × SameCache local.old local.new }
    ensures filled { IfOk result (Filled f.now how ring into.old into.new local.old local.new) }
    ensures refused { IfErr result (λ why. Received f.now how ring (length into.old) local.old local.new (Err why) []) }
    ensures kept { IfErr result (λ _. IsKept (view_of local.old) (view_of local.new)) }
    ensures back { IfErr result (λ _. into.new ≡ into.old) }
{
    tries.left -= 1;
    // an arm for each, so that the proof has each answer separately
    match local.try_receive_into_slice(f, ring, how, into) {
        Ok(moved) => Ok(moved),
        Err(why) => Err(why),
    }
}

/// Takes numbers from a ring to the front of an array, or leaves it as it is.
#[tactic(auto, using(crate::proofs::Attempts::received_again))]
pub(crate) fn receive(
    f: &PoolRings,
    local: &mut PoolCache,
    ring: usize,
    how: How,
    into: &mut [Number],
    tries: &mut Tries,
) -> Result<Moved, StartFault>
    requires local { IsLocalOf f.now local.old }
    requires ring { ring < length (rings_of f.now) }
    requires hts { OnRing f.now ring IsTakenByHts }
    requires tries { tries.old.left ≡ TRIES }
    ensures tried { IfErr result (λ why. IsTransient why → tries.new.left ≡ 0) }
    ensures local { IsLocalOf f.now local.new }
    ensures same { SameRing local.old local.new × SameCache local.old local.new }
    ensures filled { IfOk result (Filled f.now how ring into.old into.new local.old local.new) }
    ensures refused { IfErr result (λ why. Received f.now how ring (length into.old) local.old local.new (Err why) []) }
    ensures kept { IfErr result (λ _. IsKept (view_of local.old) (view_of local.new)) }
    ensures back { IfErr result (λ _. into.new ≡ into.old) }
{
    while tries.left > 1 {
        match try_receive(f, local, ring, how, into, tries) {
            Ok(moved) => return Ok(moved),
            Err(why) => {
                if !is_transient(why) {
                    return Err(why);
                }
                std::hint::spin_loop();
            }
        }
    }
    try_receive(f, local, ring, how, into, tries)
}
