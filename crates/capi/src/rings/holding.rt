//! Calls while a hand holds a head/tail-sync side: one start opens a span, and each call then settles its first
//! positions by one store. A put side is held by a peek, the calls here and a finish.
ghost use Rattle.std.specs.Prelude.{◌≡◌, ◌<◌, List, Ok, length, ⊤};
ghost use Rattle.geom.specs.declared.plan.Mode.TheVariants.{Hts};
ghost use Rattle.geom.specs.declared.plan.Side.TheVariants.{Put, Take};
ghost use Rattle.fabric.specs.Hands.{rings_of};
ghost use Rattle.fabric.specs.Held.{span_at};
ghost use Rattle.fabric.specs.InPlace.{placed_view};
ghost use Rattle.fabric.specs.Places.{IsPlaceOf, place_mode, place_ring};
ghost use Rattle.fabric.specs.declared.hand.in_place.OpenSpan.TheVariants as open_span;
ghost use Rattle.fabric.specs.declared.hand.in_place.Reserved.{Reserved as Left};
ghost use Rattle.capi.specs.Holding.{AdvancesPut, AdvancesTake, EndsHeld, HasAdvanced, HoldsTake, TakesNext};
ghost use Rattle.capi.specs.Members.{ArePlain, AreShown};
ghost use Rattle.capi.specs.declared.rings.word64.Word64.{Word64 as Item};

use crate::rings::fault::Fault;
use crate::rings::member::{Member, WordPort};
use crate::rings::reaching::reach;
use crate::rings::starting::{fault_of, room_in};
use crate::rings::word64::Word64;
use fabric::{Front, Known, OpenSpan, Place, Reserved, Words};
use geom::{How, Mode, Side};

/// Publishes words at the first positions of the open span of a put on the ring at a place. Requires: it has more
/// positions.
#[inline(always)]
pub(crate) fn publish_next(
    port: &mut WordPort,
    place: &Place,
    reserved: Reserved,
    words: &[Word64],
) -> u32
    requires open { port.old.hand.span ≡ open_span.Put reserved }
    requires plain { ArePlain (rings_of port.old.fabric.value) }
    requires place { IsPlaceOf port.old.fabric.value place.now }
    requires here { place_ring place.now ≡ reserved.ring }
    requires hts { place_mode place.now Put ≡ Hts }
    requires fewer { length words.now < reserved.range.count }
    ensures fabric { port.new.fabric ≡ port.old.fabric }
    ensures shows { (shown : List Item) → AreShown port.new.hand shown }
    ensures count { result ≡ length words.now }
    ensures rest { (r : Left) × (port.new.hand.span ≡ open_span.Put r) × HasAdvanced (span_at Put reserved) words.now
        (placed_view port.old.hand) (placed_view port.new.hand) (span_at Put r) }
{
    let known = Known {
        mode: Mode::Hts,
        free: false,
    };
    match port
        .hand
        .try_advance_put_at(&port.fabric, place, known, reserved, &mut Words { words })
    {
        Ok(_rest) => words.len() as u32,
        Err(_fault) => unreachable!(),
    }
}

/// Publishes words at the first positions of the open span of a put. Errors: `NotOpen`; `Mode` if the side is multi;
/// `Count` if no position would stay open. Nothing is changed then.
#[inline(always)]
pub fn advance_put(member: &mut Member, words: &[Word64]) -> Result<u32, Fault>
    ensures { AdvancesPut words.now member.old member.new result }
{
    let reserved = match member.port.span() {
        OpenSpan::Put(reserved) => reserved,
        _ => return Err(Fault::NotOpen),
    };
    let port = &member.port;
    reach(&port.fabric, &mut member.put_at, reserved.ring());
    match member.put_at.mode(Side::Put) {
        Mode::Hts => (),
        Mode::Multi => return Err(Fault::Mode),
    }
    if words.len() >= reserved.count() {
        return Err(Fault::Count);
    }
    Ok(publish_next(&mut member.port, &member.put_at, reserved, words))
}

/// Holds the take side of a ring, with as many of its next words as `how` says. Errors: `Ring`; `Mode`; `Open`; those
/// of a start.
#[inline(always)]
pub fn hold_take(member: &mut Member, ring: usize, n: usize, how: How) -> Result<u32, Fault>
    ensures { HoldsTake ring how n member.old member.new result }
{
    if ring >= member.port.rings() {
        return Err(Fault::Ring);
    }
    match member.port.fabric.mode(ring, Side::Take) {
        Mode::Hts => (),
        Mode::Multi => return Err(Fault::Mode),
    }
    match member.port.span() {
        OpenSpan::Idle => (),
        _ => return Err(Fault::Open),
    }
    let port = &mut member.port;
    match port.hand.try_hold_take(&port.fabric, ring, n, how) {
        Ok(reserved) => {
            member.left = reserved.left();
            Ok(reserved.count() as u32)
        }
        Err(why) => {
            member.left = room_in(why);
            Err(fault_of(why))
        }
    }
}

/// Fills an array with the next words of the held side, on the ring at a place. Requires: it has more words.
#[inline(always)]
pub(crate) fn withdraw_next(
    port: &mut WordPort,
    place: &Place,
    reserved: Reserved,
    words: &mut [Word64],
) -> u32
    requires held { port.old.hand.span ≡ open_span.Held reserved }
    requires place { IsPlaceOf port.old.fabric.value place.now }
    requires here { place_ring place.now ≡ reserved.ring }
    requires fewer { length words.old < reserved.range.count }
    ensures fabric { port.new.fabric ≡ port.old.fabric }
    ensures shows { (shown : List Item) → AreShown port.new.hand shown }
    ensures next { TakesNext ⊤ (span_at Take reserved) (placed_view port.old.hand) words.old words.new
        port.new.hand.span (placed_view port.new.hand) (Ok result) }
{
    let count = words.len();
    let mut into = Front {
        words: &mut *words,
        count: 0,
    };
    let _rest = port
        .hand
        .advance_take_at(&port.fabric, place, reserved, count, &mut into);
    count as u32
}

/// Fills an array with the next words of the held side. Errors: `NotOpen`; `Count` if no position would stay open.
/// Nothing is changed then.
#[inline(always)]
pub fn advance_take(member: &mut Member, words: &mut [Word64]) -> Result<u32, Fault>
    ensures { AdvancesTake words.old words.new member.old member.new result }
{
    let reserved = match member.port.span() {
        OpenSpan::Held(reserved) => reserved,
        _ => return Err(Fault::NotOpen),
    };
    if words.len() >= reserved.count() {
        return Err(Fault::Count);
    }
    let port = &member.port;
    reach(&port.fabric, &mut member.take_at, reserved.ring());
    Ok(withdraw_next(&mut member.port, &member.take_at, reserved, words))
}

/// Fills an array, which may be empty, with the next words of the held side, and gives the side up: the other words are
/// queued again. Errors: `NotOpen`; `Count` if the span has fewer words. Nothing is changed then.
#[inline(always)]
pub fn release_take(member: &mut Member, words: &mut [Word64]) -> Result<u32, Fault>
    ensures { EndsHeld words.old words.new member.old member.new result }
{
    let reserved = match member.port.span() {
        OpenSpan::Held(reserved) => reserved,
        _ => return Err(Fault::NotOpen),
    };
    let count = words.len();
    if count > reserved.count() {
        return Err(Fault::Count);
    }
    let port = &mut member.port;
    let mut into = Front {
        words: &mut *words,
        count: 0,
    };
    port.hand
        .release_take(&port.fabric, reserved, count, &mut into);
    Ok(count as u32)
}
