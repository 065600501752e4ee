//! Whole puts and takes of a member, each tried once.
ghost use Rattle.std.specs.Prelude.{◌≡◌, ◌<◌, ◌≤◌, ◌↔◌, ◌^◌, List, [], ◌∷◌, false, length};
ghost use Rattle.geom.specs.declared.plan.How.TheVariants.{Bulk};
ghost use Rattle.geom.specs.declared.plan.Side.TheVariants.{Put, Take};
ghost use Rattle.fabric.specs.Hands.{rings_of};
ghost use Rattle.fabric.specs.InPlace.{placed_view};
ghost use Rattle.fabric.specs.Places.{HasCounts, IsPlaceOf, place_mode, place_ring};
ghost use Rattle.fabric.specs.declared.hand.in_place.OpenSpan.TheVariants as open_span;
ghost use Rattle.capi.specs.Calls.{Puts, PutsOne, Takes, TakesOne, how_of};
ghost use Rattle.capi.specs.MemberCalls.{PutsWords, TakesWords};
ghost use Rattle.capi.specs.Members.{ArePlain, AreShown};
ghost use Rattle.capi.specs.Spans.{call_limit};
ghost use Rattle.capi.specs.declared.rings.word64.Word64.{Word64 as Item};

use crate::rings::fault::Fault;
use crate::rings::member::{MAX_WORDS, MAX_WORDS_MULTI, Member, Rings, WordPort};
use crate::rings::reaching::try_reach;
use crate::rings::starting::{fault_of, room_in};
use crate::rings::word64::Word64;
use fabric::{Known, OpenSpan, Place, WholeFault, Words};
use geom::{How, Mode, Side};
use std::slice::from_mut;

/// By bulk or by burst.
pub fn how(bulk: bool) -> How
    ensures { result ≡ how_of bulk }
{
    if bulk { How::Bulk } else { How::Burst }
}

/// The longest span for a call with `n` words on a side. `MAX_WORDS` is right for all calls that have no more: for
/// those that aren't `long` the mode isn't looked at.
#[inline(always)]
fn longest(_f: &Rings, place: &Place, side: Side, _n: usize, long: bool) -> usize
    requires of { IsPlaceOf _f.now place.now }
    requires short { long ≡ false → _n ≤ MAX_WORDS }
    ensures counts { HasCounts place.now side result }
    ensures small { result < 2 ^ 20 }
    ensures same { (_n ≤ result) ↔ (_n ≤ call_limit _f.now (place_ring place.now) side) }
{
    if !long {
        return MAX_WORDS;
    }
    match place.mode(side) {
        Mode::Multi => MAX_WORDS_MULTI,
        Mode::Hts => MAX_WORDS,
    }
}

/// Puts the first of these words on the ring at a place, whose put side has this mode. It also returns how many more
/// positions were free.
#[inline(always)]
fn put_in(
    port: &mut WordPort,
    place: &Place,
    mode: Mode,
    words: &[Word64],
    how: How,
    long: bool,
) -> (u64, Result<u32, Fault>)
    requires idle { port.old.hand.span ≡ open_span.Idle }
    requires plain { ArePlain (rings_of port.old.fabric.value) }
    requires place { IsPlaceOf port.old.fabric.value place.now }
    requires mode { mode ≡ place_mode place.now Put }
    requires short { long ≡ false → length words.now ≤ MAX_WORDS }
    ensures fabric { port.new.fabric ≡ port.old.fabric }
    ensures shows { (shown : List Item) → AreShown port.new.hand shown }
    ensures put { Puts port.old.fabric.value how (place_ring place.now) (placed_view port.old.hand) words.now result.0
        (placed_view port.new.hand) result.1 }
{
    let most = longest(&port.fabric, place, Side::Put, words.len(), long);
    let known = Known { mode, free: false };
    match port.hand.try_put_at(&port.fabric, place, known, &mut Words { words }, most, how) {
        Ok(reserved) => (reserved.left(), Ok(reserved.count() as u32)),
        Err(WholeFault::Start(why)) => (room_in(why), Err(fault_of(why))),
        Err(WholeFault::Settle(reserved, _fault)) => (reserved.left(), Err(Fault::Pending)),
    }
}

/// Takes words from the ring at a place, whose take side has this mode, to the front of an array. It also returns how
/// many more were queued.
#[inline(always)]
fn take_in(
    port: &mut WordPort,
    place: &Place,
    mode: Mode,
    words: &mut [Word64],
    how: How,
    long: bool,
) -> (u64, Result<u32, Fault>)
    requires idle { port.old.hand.span ≡ open_span.Idle }
    requires plain { ArePlain (rings_of port.old.fabric.value) }
    requires place { IsPlaceOf port.old.fabric.value place.now }
    requires mode { mode ≡ place_mode place.now Take }
    requires short { long ≡ false → length words.old ≤ MAX_WORDS }
    ensures fabric { port.new.fabric ≡ port.old.fabric }
    ensures shows { (shown : List Item) → AreShown port.new.hand shown }
    ensures take { Takes port.old.fabric.value how (place_ring place.now) (placed_view port.old.hand) words.old
        words.new result.0 (placed_view port.new.hand) result.1 }
{
    let most = longest(&port.fabric, place, Side::Take, words.len(), long);
    let known = Known { mode, free: false };
    match port
        .hand
        .try_take_at(&port.fabric, place, known, words, most, how)
    {
        Ok(reserved) => (reserved.left(), Ok(reserved.count() as u32)),
        Err(WholeFault::Start(why)) => (room_in(why), Err(fault_of(why))),
        Err(WholeFault::Settle(reserved, _fault)) => (reserved.left(), Err(Fault::Pending)),
    }
}

/// `put_in` on a ring of either mode. Each mode has its own code, which doesn't test it again.
#[inline(always)]
pub(crate) fn put_at(
    port: &mut WordPort,
    place: &Place,
    words: &[Word64],
    how: How,
    long: bool,
) -> (u64, Result<u32, Fault>)
    requires idle { port.old.hand.span ≡ open_span.Idle }
    requires plain { ArePlain (rings_of port.old.fabric.value) }
    requires place { IsPlaceOf port.old.fabric.value place.now }
    requires short { long ≡ false → length words.now ≤ MAX_WORDS }
    ensures fabric { port.new.fabric ≡ port.old.fabric }
    ensures shows { (shown : List Item) → AreShown port.new.hand shown }
    ensures put { Puts port.old.fabric.value how (place_ring place.now) (placed_view port.old.hand) words.now result.0
        (placed_view port.new.hand) result.1 }
{
    match place.mode(Side::Put) {
        Mode::Multi => put_in(port, place, Mode::Multi, words, how, long),
        Mode::Hts => put_in(port, place, Mode::Hts, words, how, long),
    }
}

/// `take_in` on a ring of either mode.
#[inline(always)]
pub(crate) fn take_at(
    port: &mut WordPort,
    place: &Place,
    words: &mut [Word64],
    how: How,
    long: bool,
) -> (u64, Result<u32, Fault>)
    requires idle { port.old.hand.span ≡ open_span.Idle }
    requires plain { ArePlain (rings_of port.old.fabric.value) }
    requires place { IsPlaceOf port.old.fabric.value place.now }
    requires short { long ≡ false → length words.old ≤ MAX_WORDS }
    ensures fabric { port.new.fabric ≡ port.old.fabric }
    ensures shows { (shown : List Item) → AreShown port.new.hand shown }
    ensures take { Takes port.old.fabric.value how (place_ring place.now) (placed_view port.old.hand) words.old
        words.new result.0 (placed_view port.new.hand) result.1 }
{
    match place.mode(Side::Take) {
        Mode::Multi => take_in(port, place, Mode::Multi, words, how, long),
        Mode::Hts => take_in(port, place, Mode::Hts, words, how, long),
    }
}

/// Puts a word on the ring at a place, whose put side has this mode.
#[inline(always)]
fn put_one_in(port: &mut WordPort, place: &Place, mode: Mode, word: Word64) -> Result<u32, Fault>
    requires idle { port.old.hand.span ≡ open_span.Idle }
    requires plain { ArePlain (rings_of port.old.fabric.value) }
    requires place { IsPlaceOf port.old.fabric.value place.now }
    requires mode { mode ≡ place_mode place.now Put }
    ensures fabric { port.new.fabric ≡ port.old.fabric }
    ensures shows { (shown : List Item) → AreShown port.new.hand shown }
    ensures put { PutsOne port.old.fabric.value (place_ring place.now) (placed_view port.old.hand) word
        (placed_view port.new.hand) result }
{
    let most = longest(&port.fabric, place, Side::Put, 1, false);
    let known = Known { mode, free: false };
    let words = &[word];
    match port
        .hand
        .try_put_one_at(&port.fabric, place, known, &mut Words { words }, most)
    {
        Ok(reserved) => Ok(reserved.count() as u32),
        Err(WholeFault::Start(why)) => Err(fault_of(why)),
        Err(WholeFault::Settle(_reserved, _fault)) => Err(Fault::Pending),
    }
}

/// Takes a word from the ring at a place, whose take side has this mode, to an array of one place.
#[inline(always)]
fn take_one_in(
    port: &mut WordPort,
    place: &Place,
    mode: Mode,
    words: &mut [Word64],
) -> Result<u32, Fault>
    requires idle { port.old.hand.span ≡ open_span.Idle }
    requires plain { ArePlain (rings_of port.old.fabric.value) }
    requires place { IsPlaceOf port.old.fabric.value place.now }
    requires mode { mode ≡ place_mode place.now Take }
    requires one { length words.old ≡ 1 }
    ensures fabric { port.new.fabric ≡ port.old.fabric }
    ensures shows { (shown : List Item) → AreShown port.new.hand shown }
    ensures take { TakesOne port.old.fabric.value (place_ring place.now) (placed_view port.old.hand) words.old
        words.new (placed_view port.new.hand) result }
{
    let most = longest(&port.fabric, place, Side::Take, 1, false);
    let known = Known { mode, free: false };
    match port
        .hand
        .try_take_one_at(&port.fabric, place, known, words, most)
    {
        Ok(reserved) => Ok(reserved.count() as u32),
        Err(WholeFault::Start(why)) => Err(fault_of(why)),
        Err(WholeFault::Settle(_reserved, _fault)) => Err(Fault::Pending),
    }
}

/// `put_one_in` on a ring of either mode. Each mode has its own code, which doesn't test it again.
#[inline(always)]
pub(crate) fn put_one_at(port: &mut WordPort, place: &Place, word: Word64) -> Result<u32, Fault>
    requires idle { port.old.hand.span ≡ open_span.Idle }
    requires plain { ArePlain (rings_of port.old.fabric.value) }
    requires place { IsPlaceOf port.old.fabric.value place.now }
    ensures fabric { port.new.fabric ≡ port.old.fabric }
    ensures shows { (shown : List Item) → AreShown port.new.hand shown }
    ensures put { PutsOne port.old.fabric.value (place_ring place.now) (placed_view port.old.hand) word
        (placed_view port.new.hand) result }
{
    match place.mode(Side::Put) {
        Mode::Multi => put_one_in(port, place, Mode::Multi, word),
        Mode::Hts => put_one_in(port, place, Mode::Hts, word),
    }
}

/// `take_one_in` on a ring of either mode.
#[inline(always)]
pub(crate) fn take_one_at(
    port: &mut WordPort,
    place: &Place,
    words: &mut [Word64],
) -> Result<u32, Fault>
    requires idle { port.old.hand.span ≡ open_span.Idle }
    requires plain { ArePlain (rings_of port.old.fabric.value) }
    requires place { IsPlaceOf port.old.fabric.value place.now }
    requires one { length words.old ≡ 1 }
    ensures fabric { port.new.fabric ≡ port.old.fabric }
    ensures shows { (shown : List Item) → AreShown port.new.hand shown }
    ensures take { TakesOne port.old.fabric.value (place_ring place.now) (placed_view port.old.hand) words.old
        words.new (placed_view port.new.hand) result }
{
    match place.mode(Side::Take) {
        Mode::Multi => take_one_in(port, place, Mode::Multi, words),
        Mode::Hts => take_one_in(port, place, Mode::Hts, words),
    }
}

/// Puts the first of these words on a ring, as many as `how` says and there is room for. Requires: there are at most
/// `MAX_WORDS`, or the call is `long`. Errors: `Ring`, `Open`; those of a start; `Pending`, and the span stays open.
#[inline(always)]
pub fn put_words(
    member: &mut Member,
    ring: usize,
    words: &[Word64],
    how: How,
    long: bool,
) -> Result<u32, Fault>
    requires short { long ≡ false → length words.now ≤ MAX_WORDS }
    ensures { PutsWords ring how words.now member.old member.new result }
{
    let port = &member.port;
    if !try_reach(&port.fabric, &mut member.put_at, ring) {
        return Err(Fault::Ring);
    }
    match member.port.span() {
        OpenSpan::Idle => (),
        _ => return Err(Fault::Open),
    }
    let (left, outcome) = put_at(&mut member.port, &member.put_at, words, how, long);
    member.left = left;
    outcome
}

/// Takes words from a ring to the front of an array, as many as `how` says and are queued. Requires: it has at most
/// `MAX_WORDS` places, or the call is `long`. Errors: `Ring`, `Open`; those of a start; `Pending`, and the span stays
/// open: its words are at the front of the array.
#[inline(always)]
pub fn take_words(
    member: &mut Member,
    ring: usize,
    words: &mut [Word64],
    how: How,
    long: bool,
) -> Result<u32, Fault>
    requires short { long ≡ false → length words.old ≤ MAX_WORDS }
    ensures { TakesWords ring how words.old words.new member.old member.new result }
{
    let port = &member.port;
    if !try_reach(&port.fabric, &mut member.take_at, ring) {
        return Err(Fault::Ring);
    }
    match member.port.span() {
        OpenSpan::Idle => (),
        _ => return Err(Fault::Open),
    }
    let (left, outcome) = take_at(&mut member.port, &member.take_at, words, how, long);
    member.left = left;
    outcome
}

/// Puts a word on a ring: `put_words` by bulk with it alone.
#[inline(always)]
pub fn put_word(member: &mut Member, ring: usize, word: Word64) -> Result<u32, Fault>
    ensures { PutsWords ring Bulk (word ∷ []) member.old member.new result }
{
    put_words(member, ring, &[word], How::Bulk, false)
}

/// Takes a word from a ring: `take_words` by bulk with one place.
#[inline(always)]
pub fn take_word(member: &mut Member, ring: usize, word: &mut Word64) -> Result<u32, Fault>
    ensures { TakesWords ring Bulk (word.old ∷ []) (word.new ∷ []) member.old member.new result }
{
    take_words(member, ring, from_mut(word), How::Bulk, false)
}
