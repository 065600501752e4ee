//! Calls on a reader of a forwarding table. Each uses the last version, or the one that the reader holds, and neither
//! waits nor takes memory.
ghost use Rattle.std.specs.Prelude.{◌≡◌, ◌↔◌, true, IfErr, IsTrue};
ghost use Rattle.lpm.specs.Match.{lookup_in};
ghost use Rattle.live_value.specs.Pasts.{IsLater};
ghost use Rattle.capi.specs.Forwards.{AtForward, AtReader, Forwards, ForwardsAll, Holds, IsBurst, Judges, LetsGo, TellsAddressed};
ghost use Rattle.capi.specs.Tables.{LooksUpAll, hop_found};

use crate::object::Object;
use crate::rings::Fault;
use crate::route_tables::look_up_in;
use ipv4::Hop;
use live_routes::{Fib, Frame, MAX_FRAMES, Port, RouteReader, addressed_at, fits};

type Reader = RouteReader<Hop, Port>;

/// Enters the last version for one call, unless the reader holds one already. Returns whether it does.
#[inline]
fn begin(reader: &mut Reader) -> bool
    ensures held { result ≡ reader.old.inside }
    ensures inside { reader.new.inside ≡ true }
    ensures later { IsLater reader.new.seen reader.old.seen }
    ensures kept { reader.old.inside ≡ true → reader.new.seen ≡ reader.old.seen }
{
    let held = reader.is_inside();
    reader.enter();
    held
}

/// Lets it go, unless the program holds it.
#[inline]
fn end(reader: &mut Reader, held: bool)
    requires { reader.old.inside ≡ true }
    ensures inside { reader.new.inside ≡ held }
    ensures seen { reader.new.seen ≡ reader.old.seen }
{
    if !held {
        reader.leave();
    }
}

/// Holds the last version for the calls that follow.
pub(crate) fn hold(slot: &mut Option<Object>) -> Result<u32, Fault>
    ensures { AtReader slot.old slot.new result (Holds result) }
{
    match slot {
        Some(Object::Forward(reader)) => {
            reader.enter();
            Ok(0)
        }
        Some(_) => Err(Fault::Kind),
        None => Err(Fault::Empty),
    }
}

/// Lets it go.
pub(crate) fn release(slot: &mut Option<Object>) -> Result<u32, Fault>
    ensures { AtReader slot.old slot.new result (LetsGo result) }
{
    match slot {
        Some(Object::Forward(reader)) => {
            reader.leave();
            Ok(0)
        }
        Some(_) => Err(Fault::Kind),
        None => Err(Fault::Empty),
    }
}

/// The next hop for an address.
#[inline]
pub(crate) fn look_up(slot: &mut Option<Object>, address: u32) -> Result<u32, Fault>
    ensures { AtForward slot.old slot.new result (λ r. result ≡ hop_found (lookup_in r.members address)) }
{
    match slot {
        Some(Object::Forward(reader)) => match reader.lookup(address) {
            Some(hop) => Ok(hop),
            None => Err(Fault::NoRoute),
        },
        Some(_) => Err(Fault::Kind),
        None => Err(Fault::Empty),
    }
}

/// The next hops for addresses, all by the same publish. Errors: `Count` if there are not as many places.
pub(crate) fn look_up_all(
    slot: &mut Option<Object>,
    addresses: &[u32],
    hops: &mut [u32],
) -> Result<u32, Fault>
    ensures all { AtForward slot.old slot.new result
        (λ r. LooksUpAll result addresses.now hops.old hops.new r.members) }
    ensures refused { IfErr result (λ _. hops.new ≡ hops.old) }
{
    match slot {
        Some(Object::Forward(reader)) => {
            let held = begin(reader);
            let outcome = look_up_in(reader.fib().table(), addresses, hops);
            end(reader, held);
            outcome
        }
        Some(_) => Err(Fault::Kind),
        None => Err(Fault::Empty),
    }
}

#[inline]
fn forward_in(fib: &Fib<Hop, Port>, frame: &mut [u8], wire: usize) -> Result<u32, Fault>
    ensures { Forwards result wire frame.old frame.new fib.now }
{
    if frame.len() > wire {
        return Err(Fault::Count);
    }
    Ok(live_routes::forward(fib, frame, wire))
}

/// Forwards a frame.
#[inline]
pub(crate) fn forward(
    slot: &mut Option<Object>,
    frame: &mut [u8],
    wire: usize,
) -> Result<u32, Fault>
    ensures forwarded { AtForward slot.old slot.new result (Forwards result wire frame.old frame.new) }
    ensures refused { IfErr result (λ _. frame.new ≡ frame.old) }
{
    match slot {
        Some(Object::Forward(reader)) => {
            let held = begin(reader);
            let outcome = forward_in(reader.fib(), frame, wire);
            end(reader, held);
            outcome
        }
        Some(_) => Err(Fault::Kind),
        None => Err(Fault::Empty),
    }
}

#[inline]
fn verdict_in(fib: &Fib<Hop, Port>, frame: &[u8], wire: usize) -> Result<u32, Fault>
    ensures { Judges result wire frame.now fib.now }
{
    if frame.len() > wire {
        return Err(Fault::Count);
    }
    Ok(live_routes::verdict(fib, frame, wire))
}

/// The verdict on a frame.
#[inline]
pub(crate) fn verdict(slot: &mut Option<Object>, frame: &[u8], wire: usize) -> Result<u32, Fault>
    ensures { AtForward slot.old slot.new result (Judges result wire frame.now) }
{
    match slot {
        Some(Object::Forward(reader)) => {
            let held = begin(reader);
            let outcome = verdict_in(reader.fib(), frame, wire);
            end(reader, held);
            outcome
        }
        Some(_) => Err(Fault::Kind),
        None => Err(Fault::Empty),
    }
}

/// Whether frames and places are a burst.
fn is_burst(frames: &[Frame<'_>], verdicts: &[u32]) -> bool
    ensures { IsTrue result ↔ IsBurst frames.now verdicts.now }
{
    if frames.is_empty() || frames.len() > MAX_FRAMES || frames.len() != verdicts.len() {
        return false;
    }
    frames.iter().all(|frame| fits(frame))
}

fn burst_in(
    fib: &Fib<Hop, Port>,
    frames: &mut [Frame<'_>],
    verdicts: &mut [u32],
) -> Result<u32, Fault>
    ensures { ForwardsAll result frames.old frames.new verdicts.old verdicts.new fib.now }
{
    if !is_burst(frames, verdicts) {
        return Err(Fault::Count);
    }
    Ok(live_routes::forward_burst(fib, frames, verdicts) as u32)
}

/// Forwards a burst, all frames by the same publish.
pub(crate) fn forward_burst(
    slot: &mut Option<Object>,
    frames: &mut [Frame<'_>],
    verdicts: &mut [u32],
) -> Result<u32, Fault>
    ensures forwarded { AtForward slot.old slot.new result
        (ForwardsAll result frames.old frames.new verdicts.old verdicts.new) }
    ensures refused { IfErr result (λ _. (frames.new ≡ frames.old) × (verdicts.new ≡ verdicts.old)) }
{
    match slot {
        Some(Object::Forward(reader)) => {
            let held = begin(reader);
            let outcome = burst_in(reader.fib(), frames, verdicts);
            end(reader, held);
            outcome
        }
        Some(_) => Err(Fault::Kind),
        None => Err(Fault::Empty),
    }
}

fn addressed_in(fib: &Fib<Hop, Port>, port: usize, frame: &[u8]) -> Result<u32, Fault>
    ensures { TellsAddressed result port frame.now fib.now }
{
    match addressed_at(fib, port, frame) {
        Some(told) => Ok(told.bits()),
        None => Err(Fault::Count),
    }
}

/// What a frame is addressed to.
pub(crate) fn addressed(slot: &mut Option<Object>, port: usize, frame: &[u8]) -> Result<u32, Fault>
    ensures { AtForward slot.old slot.new result (TellsAddressed result port frame.now) }
{
    match slot {
        Some(Object::Forward(reader)) => {
            let held = begin(reader);
            let outcome = addressed_in(reader.fib(), port, frame);
            end(reader, held);
            outcome
        }
        Some(_) => Err(Fault::Kind),
        None => Err(Fault::Empty),
    }
}
