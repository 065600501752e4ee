//! Puts and takes of one word by the ends of a hand.
ghost use Rattle.std.specs.Prelude.{◌≡◌, [], ◌∷◌, length, true, false, Ok, Err, IfErr, IfNone, IfOk, IfSome};
ghost use Rattle.geom.specs.declared.plan.How.TheVariants.{Burst};
ghost use Rattle.geom.specs.declared.plan.Mode.TheVariants.{Hts};
ghost use Rattle.geom.specs.declared.plan.Side.TheVariants.{Put, Take};
ghost use Rattle.fabric.specs.InPlace.{Remembers, RemembersNone, placed_view};
ghost use Rattle.fabric.specs.Places.{place_mode, place_ring};
ghost use Rattle.fabric.specs.declared.hand.in_place.OpenSpan.TheVariants as open_span;
ghost use Rattle.capi.specs.EndCalls.{EndPuts, EndTakes, PutsAlone, PutsHeld, PutsNext};
ghost use Rattle.capi.specs.EndCalls.{TakesAlone, TakesHeld, TakesNextWord};
ghost use Rattle.capi.specs.MemberCalls.{OpensPut};

use crate::rings::end::EndState;
use crate::rings::fault::Fault;
use crate::rings::holding::{hold_take, publish_next, release_take, withdraw_next};
use crate::rings::member::{Member, WordPort};
use crate::rings::span_calls::finish_put_of;
use crate::rings::starting::{fault_of, room_in, start_put};
use crate::rings::whole_calls::{put_one_at, take_one_at};
use crate::rings::word64::Word64;
use fabric::{OpenSpan, Reserved};
use geom::{How, Side};
use std::slice::from_mut;

/// Whether the next put by the hand's end would be tried at once.
#[inline(always)]
pub fn is_put_recent(member: &Member) -> bool
    ensures yes { result ≡ true → Remembers member.now.port.hand (place_ring member.now.ends.put.at) Put }
    ensures no { result ≡ false → Remembers member.now.port.hand (place_ring member.now.ends.put.at) Put → ⊥ }
{
    let port = &member.port;
    port.hand
        .is_recent_at(&port.fabric, &member.ends.put.at, Side::Put)
}

/// Has a call that `looks` begin with a look at its side, whatever the hand remembers. Where `looks` is a constant, the
/// code for a start at once isn't there.
#[inline(always)]
fn look_first(port: &mut WordPort, looks: bool)
    ensures fabric { port.new.fabric ≡ port.old.fabric }
    ensures span { port.new.hand.span ≡ port.old.hand.span }
    ensures view { placed_view port.new.hand ≡ placed_view port.old.hand }
    ensures first { looks ≡ true → RemembersNone port.new.hand }
{
    if looks {
        port.hand.forget();
    }
}

/// A put by a whole call. One that `looks` isn't tried at once.
#[inline(always)]
fn put_alone(member: &mut Member, word: Word64, looks: bool) -> Result<u32, Fault>
    ensures { PutsAlone (place_ring member.old.ends.put.at) word member.old member.new result }
{
    match member.port.span() {
        OpenSpan::Idle => (),
        _ => return Err(Fault::Open),
    }
    look_first(&mut member.port, looks);
    put_one_at(&mut member.port, &member.ends.put.at, word)
}

/// A put at the next position of the open span.
#[inline(always)]
fn put_next(member: &mut Member, reserved: Reserved, word: Word64) -> Result<u32, Fault>
    requires open { member.old.port.hand.span ≡ open_span.Put reserved }
    requires hts { place_mode member.old.ends.put.at Put ≡ Hts }
    ensures { PutsNext (place_ring member.old.ends.put.at) word member.old.port.hand.span member.old member.new
        result }
{
    if reserved.ring() != member.ends.put.at.ring() {
        return Err(Fault::Open);
    }
    if reserved.count() <= 1 {
        return finish_put_of(member, &[word]);
    }
    Ok(publish_next(&mut member.port, &member.ends.put.at, reserved, &[word]))
}

/// A put at the next position of the open span, unless that is its last one, or the span is on another ring: then
/// nothing is done.
#[inline(always)]
fn put_more(member: &mut Member, reserved: Reserved, word: Word64) -> Option<Result<u32, Fault>>
    requires open { member.old.port.hand.span ≡ open_span.Put reserved }
    requires hts { place_mode member.old.ends.put.at Put ≡ Hts }
    ensures done { IfSome result (λ outcome. PutsNext (place_ring member.old.ends.put.at) word
        member.old.port.hand.span member.old member.new outcome) }
    ensures none { IfNone result (member.new ≡ member.old) }
{
    if reserved.ring() != member.ends.put.at.ring() {
        return None;
    }
    if reserved.count() <= 1 {
        return None;
    }
    Some(Ok(publish_next(&mut member.port, &member.ends.put.at, reserved, &[word])))
}

/// Reserves positions for an end that holds its side.
fn reserve_puts(member: &mut Member, most: usize) -> Result<Reserved, Fault>
    requires idle { member.old.port.hand.span ≡ open_span.Idle }
    ensures ends { member.new.ends ≡ member.old.ends }
    ensures span { IfOk result (λ r. member.new.port.hand.span ≡ open_span.Put r) }
    ensures opened { IfOk result (λ r. OpensPut (place_ring member.old.ends.put.at) Burst most member.old member.new
        (Ok r.range.count)) }
    ensures refused { IfErr result (λ why. OpensPut (place_ring member.old.ends.put.at) Burst most member.old member.new
        (Err why)) }
{
    let port = &mut member.port;
    let ring = member.ends.put.at.ring();
    match start_put(&port.fabric, &mut port.hand, ring, most, How::Burst) {
        Ok(reserved) => {
            member.left = reserved.left();
            Ok(reserved)
        }
        Err(why) => {
            member.left = room_in(why);
            Err(fault_of(why))
        }
    }
}

/// The first put on a held side: it reserves positions.
#[inline(never)]
fn put_first(member: &mut Member, most: usize, word: Word64) -> Result<u32, Fault>
    requires idle { member.old.port.hand.span ≡ open_span.Idle }
    requires hts { place_mode member.old.ends.put.at Put ≡ Hts }
    ensures { PutsHeld (place_ring member.old.ends.put.at) word most member.old.port.hand.span member.old member.new
        result }
{
    match reserve_puts(member, most) {
        Ok(reserved) => put_next(member, reserved, word),
        Err(why) => Err(why),
    }
}

/// A put on a held side.
#[inline(always)]
fn put_held(member: &mut Member, most: usize, word: Word64) -> Result<u32, Fault>
    requires hts { place_mode member.old.ends.put.at Put ≡ Hts }
    ensures { PutsHeld (place_ring member.old.ends.put.at) word most member.old.port.hand.span member.old member.new
        result }
{
    match member.port.span() {
        OpenSpan::Put(reserved) => put_next(member, reserved, word),
        OpenSpan::Idle => put_first(member, most, word),
        _ => Err(Fault::Open),
    }
}

/// Puts a word by the hand's end. Errors: `NotOpen` if it has none; `Open` if the hand has another span open; those of
/// a start; `Pending`, and the span stays open.
#[inline(always)]
pub fn end_put(member: &mut Member, word: Word64) -> Result<u32, Fault>
    ensures { EndPuts word member.old member.new result }
{
    match member.ends.put.state {
        EndState::Open => put_alone(member, word, false),
        EndState::Holds(most) => put_held(member, most, word),
        EndState::Closed => Err(Fault::NotOpen),
    }
}

/// `end_put` of a word on a held side that isn't its last one. At `None` nothing was done. It calls no other function,
/// so its caller saves no registers.
#[inline(always)]
pub fn put_on_held(member: &mut Member, word: Word64) -> Option<Result<u32, Fault>>
    ensures done { IfSome result (λ outcome. EndPuts word member.old member.new outcome) }
    ensures none { IfNone result (member.new ≡ member.old) }
{
    match member.port.span() {
        OpenSpan::Put(reserved) => match member.ends.put.state {
            EndState::Holds(_) => put_more(member, reserved, word),
            _ => None,
        },
        _ => None,
    }
}

/// `end_put` of a word by a whole call. At `None` nothing was done.
#[inline(always)]
pub fn put_when_open(member: &mut Member, word: Word64, looks: bool) -> Option<Result<u32, Fault>>
    ensures done { IfSome result (λ outcome. EndPuts word member.old member.new outcome) }
    ensures none { IfNone result (member.new ≡ member.old) }
{
    match member.ends.put.state {
        EndState::Open => Some(put_alone(member, word, looks)),
        _ => None,
    }
}

/// Whether the next take by the hand's end would be tried at once.
#[inline(always)]
pub fn is_take_recent(member: &Member) -> bool
    ensures yes { result ≡ true → Remembers member.now.port.hand (place_ring member.now.ends.take.at) Take }
    ensures no { result ≡ false → Remembers member.now.port.hand (place_ring member.now.ends.take.at) Take → ⊥ }
{
    let port = &member.port;
    port.hand
        .is_recent_at(&port.fabric, &member.ends.take.at, Side::Take)
}

/// A take by a whole call. One that `looks` isn't tried at once.
#[inline(always)]
fn take_alone(member: &mut Member, words: &mut [Word64], looks: bool) -> Result<u32, Fault>
    requires one { length words.old ≡ 1 }
    ensures { TakesAlone (place_ring member.old.ends.take.at) words.old words.new member.old member.new result }
{
    match member.port.span() {
        OpenSpan::Idle => (),
        _ => return Err(Fault::Open),
    }
    look_first(&mut member.port, looks);
    take_one_at(&mut member.port, &member.ends.take.at, words)
}

/// A take of the next word of a held side.
#[inline(always)]
fn take_next(member: &mut Member, reserved: Reserved, words: &mut [Word64]) -> Result<u32, Fault>
    requires one { length words.old ≡ 1 }
    requires held { member.old.port.hand.span ≡ open_span.Held reserved }
    ensures { TakesNextWord (place_ring member.old.ends.take.at) words.old words.new member.old.port.hand.span
        member.old member.new result }
{
    if reserved.ring() != member.ends.take.at.ring() {
        return Err(Fault::Open);
    }
    if reserved.count() <= 1 {
        return release_take(member, words);
    }
    Ok(withdraw_next(&mut member.port, &member.ends.take.at, reserved, words))
}

/// A take of the next word of a held side, unless that is the span's last one, or the span is on another ring: then
/// nothing is done.
#[inline(always)]
fn take_more(
    member: &mut Member,
    reserved: Reserved,
    words: &mut [Word64],
) -> Option<Result<u32, Fault>>
    requires one { length words.old ≡ 1 }
    requires held { member.old.port.hand.span ≡ open_span.Held reserved }
    ensures done { IfSome result (λ outcome. TakesNextWord (place_ring member.old.ends.take.at) words.old words.new
        member.old.port.hand.span member.old member.new outcome) }
    ensures none { IfNone result ((member.new ≡ member.old) × (words.new ≡ words.old)) }
{
    if reserved.ring() != member.ends.take.at.ring() {
        return None;
    }
    if reserved.count() <= 1 {
        return None;
    }
    Some(Ok(withdraw_next(&mut member.port, &member.ends.take.at, reserved, words)))
}

/// The first take on a side that isn't held yet.
#[inline(never)]
fn take_first(member: &mut Member, most: usize, words: &mut [Word64]) -> Result<u32, Fault>
    requires one { length words.old ≡ 1 }
    requires idle { member.old.port.hand.span ≡ open_span.Idle }
    ensures { TakesHeld (place_ring member.old.ends.take.at) words.old words.new most member.old.port.hand.span
        member.old member.new result }
{
    let ring = member.ends.take.at.ring();
    match hold_take(member, ring, most, How::Burst) {
        Ok(_) => match member.port.span() {
            OpenSpan::Held(reserved) => take_next(member, reserved, words),
            _ => unreachable!(),
        },
        Err(why) => Err(why),
    }
}

/// A take on a held side.
#[inline(always)]
fn take_held(member: &mut Member, most: usize, words: &mut [Word64]) -> Result<u32, Fault>
    requires one { length words.old ≡ 1 }
    ensures { TakesHeld (place_ring member.old.ends.take.at) words.old words.new most member.old.port.hand.span
        member.old member.new result }
{
    match member.port.span() {
        OpenSpan::Held(reserved) => take_next(member, reserved, words),
        OpenSpan::Idle => take_first(member, most, words),
        _ => Err(Fault::Open),
    }
}

/// Takes a word by the hand's end, to an array of one place. Errors: `NotOpen` if it has none; `Open` if the hand has
/// another span open; those of a start; `Pending`, and the span stays open: the word is written already.
#[inline(always)]
fn take_by_end(member: &mut Member, words: &mut [Word64]) -> Result<u32, Fault>
    requires one { length words.old ≡ 1 }
    ensures { EndTakes words.old words.new member.old member.new result }
{
    match member.ends.take.state {
        EndState::Open => take_alone(member, words, false),
        EndState::Holds(most) => take_held(member, most, words),
        EndState::Closed => Err(Fault::NotOpen),
    }
}

/// `take_by_end` of a word of a held side that isn't its last one. At `None` nothing was done.
#[inline(always)]
fn take_by_held(member: &mut Member, words: &mut [Word64]) -> Option<Result<u32, Fault>>
    requires one { length words.old ≡ 1 }
    ensures done { IfSome result (λ outcome. EndTakes words.old words.new member.old member.new outcome) }
    ensures none { IfNone result ((member.new ≡ member.old) × (words.new ≡ words.old)) }
{
    match member.port.span() {
        OpenSpan::Held(reserved) => match member.ends.take.state {
            EndState::Holds(_) => take_more(member, reserved, words),
            _ => None,
        },
        _ => None,
    }
}

/// `end_take` of a word of a held side that isn't its last one. At `None` nothing was done.
#[inline(always)]
pub fn take_on_held(member: &mut Member, word: &mut Word64) -> Option<Result<u32, Fault>>
    ensures done { IfSome result
        (λ outcome. EndTakes (word.old ∷ []) (word.new ∷ []) member.old member.new outcome) }
    ensures none { IfNone result ((member.new ≡ member.old) × (word.new ≡ word.old)) }
{
    take_by_held(member, from_mut(word))
}

/// `take_by_end` of a word by a whole call. At `None` nothing was done.
#[inline(always)]
fn take_by_call(
    member: &mut Member,
    words: &mut [Word64],
    looks: bool,
) -> Option<Result<u32, Fault>>
    requires one { length words.old ≡ 1 }
    ensures done { IfSome result (λ outcome. EndTakes words.old words.new member.old member.new outcome) }
    ensures none { IfNone result ((member.new ≡ member.old) × (words.new ≡ words.old)) }
{
    match member.ends.take.state {
        EndState::Open => Some(take_alone(member, words, looks)),
        _ => None,
    }
}

/// `end_take` of a word by a whole call. At `None` nothing was done.
#[inline(always)]
pub fn take_when_open(
    member: &mut Member,
    word: &mut Word64,
    looks: bool,
) -> Option<Result<u32, Fault>>
    ensures done { IfSome result
        (λ outcome. EndTakes (word.old ∷ []) (word.new ∷ []) member.old member.new outcome) }
    ensures none { IfNone result ((member.new ≡ member.old) × (word.new ≡ word.old)) }
{
    take_by_call(member, from_mut(word), looks)
}

/// `take_by_end` of a word.
#[inline(always)]
pub fn end_take(member: &mut Member, word: &mut Word64) -> Result<u32, Fault>
    ensures { EndTakes (word.old ∷ []) (word.new ∷ []) member.old member.new result }
{
    take_by_end(member, from_mut(word))
}
