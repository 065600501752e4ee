//! Closing rings, and taking what is left on them.
ghost use Rattle.std.specs.Prelude.{◌≡◌, ◌<◌, ◌≤◌, IfErr, IfOk, length};
ghost use Rattle.fabric.specs.Closed.{ring_count};
ghost use Rattle.capi.specs.Leftovers.{Closes, DrainsLeftover, Empties, RefusesClose};
ghost use Rattle.capi.specs.RingCalls.{SameMember};

use crate::rings::closing::Leftover;
use crate::rings::fault::Fault;
use crate::rings::member::{MAX_WORDS, Member};
use crate::rings::word64::Word64;
use fabric::OpenSpan;
use ringapi::Port;
use std::sync::Arc;

/// Closes the rings of a member that has no open span, and that no other shares. Errors: `Open`; `Shared`; the member
/// comes back.
pub fn close(member: Member) -> Result<Leftover, (Member, Fault)>
    ensures closed { IfOk result (λ r. Closes member r) }
    ensures refused { IfErr result (λ e. SameMember member e.0 × RefusesClose member e.1) }
{
    match member.port.span() {
        OpenSpan::Idle => (),
        _ => return Err((member, Fault::Open)),
    }
    let Member {
        port,
        shown,
        left,
        put_at,
        take_at,
        ends,
        spares,
    } = member;
    let Port { fabric, hand } = port;
    let rings = fabric.rings();
    match Arc::try_unwrap(fabric) {
        Ok(whole) => Ok(Leftover {
            closed: whole.close(hand.into_hand()),
            rings,
        }),
        Err(fabric) => {
            let port = Port { fabric, hand };
            let member = Member {
                port,
                shown,
                left,
                put_at,
                take_at,
                ends,
                spares,
            };
            Err((member, Fault::Shared))
        }
    }
}

/// Takes the words that are left on a ring, the oldest first, as many as there are places.
fn empty(leftover: &mut Leftover, ring: usize, words: &mut [Word64]) -> u32
    requires few { length words.old ≤ MAX_WORDS }
    requires ring { ring < ring_count leftover.old.closed }
    ensures { Empties ring words.old words.new result leftover.old leftover.new }
{
    for i in 0..words.len() {
        match leftover.closed.next(ring) {
            Some(word) => words[i] = word,
            None => return i as u32,
        }
    }
    words.len() as u32
}

/// Takes the words that are left on a ring, the oldest first, once its number and theirs were tested. Errors: `Ring`;
/// `Count`.
pub fn drain(leftover: &mut Leftover, ring: usize, words: &mut [Word64]) -> Result<u32, Fault>
    ensures { DrainsLeftover result MAX_WORDS ring words.old words.new leftover.old leftover.new }
{
    if ring >= leftover.rings {
        return Err(Fault::Ring);
    }
    if words.len() > MAX_WORDS {
        return Err(Fault::Count);
    }
    Ok(empty(leftover, ring, words))
}
