//! The exports for lookups and forwarding by the last version of a table. Each call takes the reader out of its handle
//! and puts it back.
ghost use Rattle.std.specs.Prelude.{◌≡◌, IfErr};
ghost use Rattle.lpm.specs.Match.{lookup_in};
ghost use Rattle.capi.specs.Codes.{Answers};
ghost use Rattle.capi.specs.Forwards.{AtForward, AtReader, Forwards, ForwardsAll, Holds, Judges, LetsGo, TellsAddressed};
ghost use Rattle.capi.specs.Tables.{LooksUpAll, hop_found};

use crate::forwarders::{
    addressed, forward, forward_burst, hold, look_up, look_up_all, release, verdict,
};
use crate::handle::Handle;
use crate::keeping::borrow;
use crate::rings::{Fault, answer};
use live_routes::Frame;
use std::alloc::Global;

fn hold_at(alloc: Global, h: &mut Handle) -> Result<u32, Fault>
    ensures { AtReader h.old.value h.new.value result (Holds result) }
{
    let Some(mut slot) = borrow(alloc, h) else {
        return Err(Fault::Empty);
    };
    let outcome = hold(&mut slot);
    *h = Handle::of(slot);
    outcome
}

fn release_at(alloc: Global, h: &mut Handle) -> Result<u32, Fault>
    ensures { AtReader h.old.value h.new.value result (LetsGo result) }
{
    let Some(mut slot) = borrow(alloc, h) else {
        return Err(Fault::Empty);
    };
    let outcome = release(&mut slot);
    *h = Handle::of(slot);
    outcome
}

fn look_up_at(alloc: Global, h: &mut Handle, address: u32) -> Result<u32, Fault>
    ensures { AtForward h.old.value h.new.value result
        (λ r. result ≡ hop_found (lookup_in r.members address)) }
{
    let Some(mut slot) = borrow(alloc, h) else {
        return Err(Fault::Empty);
    };
    let outcome = look_up(&mut slot, address);
    *h = Handle::of(slot);
    outcome
}

fn look_up_all_at(
    alloc: Global,
    h: &mut Handle,
    addresses: &[u32],
    hops: &mut [u32],
) -> Result<u32, Fault>
    ensures all { AtForward h.old.value h.new.value result
        (λ r. LooksUpAll result addresses.now hops.old hops.new r.members) }
    ensures refused { IfErr result (λ _. hops.new ≡ hops.old) }
{
    let Some(mut slot) = borrow(alloc, h) else {
        return Err(Fault::Empty);
    };
    let outcome = look_up_all(&mut slot, addresses, hops);
    *h = Handle::of(slot);
    outcome
}

fn forward_at(alloc: Global, h: &mut Handle, frame: &mut [u8], wire: usize) -> Result<u32, Fault>
    ensures forwarded { AtForward h.old.value h.new.value result (Forwards result wire frame.old frame.new) }
    ensures refused { IfErr result (λ _. frame.new ≡ frame.old) }
{
    let Some(mut slot) = borrow(alloc, h) else {
        return Err(Fault::Empty);
    };
    let outcome = forward(&mut slot, frame, wire);
    *h = Handle::of(slot);
    outcome
}

fn verdict_at(alloc: Global, h: &mut Handle, frame: &[u8], wire: usize) -> Result<u32, Fault>
    ensures { AtForward h.old.value h.new.value result (Judges result wire frame.now) }
{
    let Some(mut slot) = borrow(alloc, h) else {
        return Err(Fault::Empty);
    };
    let outcome = verdict(&mut slot, frame, wire);
    *h = Handle::of(slot);
    outcome
}

fn forward_burst_at(
    alloc: Global,
    h: &mut Handle,
    frames: &mut [Frame<'_>],
    verdicts: &mut [u32],
) -> Result<u32, Fault>
    ensures forwarded { AtForward h.old.value h.new.value result
        (ForwardsAll result frames.old frames.new verdicts.old verdicts.new) }
    ensures refused { IfErr result (λ _. (frames.new ≡ frames.old) × (verdicts.new ≡ verdicts.old)) }
{
    let Some(mut slot) = borrow(alloc, h) else {
        return Err(Fault::Empty);
    };
    let outcome = forward_burst(&mut slot, frames, verdicts);
    *h = Handle::of(slot);
    outcome
}

fn addressed_at(alloc: Global, h: &mut Handle, port: usize, frame: &[u8]) -> Result<u32, Fault>
    ensures { AtForward h.old.value h.new.value result (TellsAddressed result port frame.now) }
{
    let Some(mut slot) = borrow(alloc, h) else {
        return Err(Fault::Empty);
    };
    let outcome = addressed(&mut slot, port, frame);
    *h = Handle::of(slot);
    outcome
}

/// Holds the last version for the calls that follow. A version that is held already stays.
#[unsafe(no_mangle)]
pub extern "C" fn hkx_forward_hold(alloc: Global, h: &mut Handle) -> i64
    ensures { Answers result (λ outcome. AtReader h.old.value h.new.value outcome (Holds outcome)) }
{
    answer(hold_at(alloc, h))
}

/// Lets go what is held, if anything is.
#[unsafe(no_mangle)]
pub extern "C" fn hkx_forward_release(alloc: Global, h: &mut Handle) -> i64
    ensures { Answers result (λ outcome. AtReader h.old.value h.new.value outcome (LetsGo outcome)) }
{
    answer(release_at(alloc, h))
}

/// The next hop of the longest published route that covers an address.
#[unsafe(no_mangle)]
pub extern "C" fn hkx_forward_lookup(alloc: Global, h: &mut Handle, address: u32) -> i64
    ensures { Answers result (λ outcome. AtForward h.old.value h.new.value outcome
        (λ r. outcome ≡ hop_found (lookup_in r.members address))) }
{
    answer(look_up_at(alloc, h, address))
}

/// The next hops for addresses, each at its address's place, all by one version; 2^32 - 1 if no route covers an
/// address.
#[unsafe(no_mangle)]
pub extern "C" fn hkx_forward_lookup_bulk(
    alloc: Global,
    h: &mut Handle,
    addresses: &[u32],
    hops: &mut [u32],
) -> i64
    ensures { Answers result (λ outcome. AtForward h.old.value h.new.value outcome
        (λ r. LooksUpAll outcome addresses.now hops.old hops.new r.members)
        × IfErr outcome (λ _. hops.new ≡ hops.old)) }
{
    answer(look_up_all_at(alloc, h, addresses, hops))
}

/// Forwards a frame that had `wire` bytes on the wire, and returns the number of its verdict. If it is sent, it is
/// rewritten in place.
#[unsafe(no_mangle)]
pub extern "C" fn hkx_forward_frame(
    alloc: Global,
    h: &mut Handle,
    frame: &mut [u8],
    wire: usize,
) -> i64
    ensures { Answers result (λ outcome. AtForward h.old.value h.new.value outcome
        (Forwards outcome wire frame.old frame.new)
        × IfErr outcome (λ _. frame.new ≡ frame.old)) }
{
    answer(forward_at(alloc, h, frame, wire))
}

/// The number of the verdict on a frame, which stays as it is.
#[unsafe(no_mangle)]
pub extern "C" fn hkx_forward_verdict(
    alloc: Global,
    h: &mut Handle,
    frame: &[u8],
    wire: usize,
) -> i64
    ensures { Answers result
        (λ outcome. AtForward h.old.value h.new.value outcome (Judges outcome wire frame.now)) }
{
    answer(verdict_at(alloc, h, frame, wire))
}

/// Forwards frames, with their lookups together, and writes the number of each verdict at its frame's place. Returns
/// how many are sent.
#[unsafe(no_mangle)]
pub extern "C" fn hkx_forward_burst(
    alloc: Global,
    h: &mut Handle,
    frames: &mut [Frame<'_>],
    verdicts: &mut [u32],
) -> i64
    ensures { Answers result (λ outcome. AtForward h.old.value h.new.value outcome
        (ForwardsAll outcome frames.old frames.new verdicts.old verdicts.new)
        × IfErr outcome (λ _. (frames.new ≡ frames.old) × (verdicts.new ≡ verdicts.old))) }
{
    answer(forward_burst_at(alloc, h, frames, verdicts))
}

/// What a frame is addressed to that came in through a port, as bits.
#[unsafe(no_mangle)]
pub extern "C" fn hkx_forward_class(alloc: Global, h: &mut Handle, port: usize, frame: &[u8]) -> i64
    ensures { Answers result
        (λ outcome. AtForward h.old.value h.new.value outcome (TellsAddressed outcome port frame.now)) }
{
    answer(addressed_at(alloc, h, port, frame))
}
