//! Peeks of a member, and finishing the span that it has open.
ghost use Rattle.capi.specs.MemberCalls.{EndsPut, EndsTake, OpensPut, OpensTake};

use crate::rings::fault::Fault;
use crate::rings::finishing::{finish_put, finish_take};
use crate::rings::member::Member;
use crate::rings::peeking::{peek_put, peek_take};
use crate::rings::word64::Word64;
use fabric::OpenSpan;
use geom::{How, Mode, Side};

/// Reserves positions of a put side. Errors: `Ring`, `Mode`, `Open`; those of a start.
pub fn peek_put_of(member: &mut Member, ring: usize, n: usize, how: How) -> Result<u32, Fault>
    ensures { OpensPut ring how n member.old member.new result }
{
    if ring >= member.port.rings() {
        return Err(Fault::Ring);
    }
    match member.port.fabric.mode(ring, Side::Put) {
        Mode::Hts => (),
        Mode::Multi => return Err(Fault::Mode),
    }
    match member.port.span() {
        OpenSpan::Idle => {
            let port = &mut member.port;
            let (left, outcome) = peek_put(&port.fabric, &mut port.hand, ring, n, how);
            member.left = left;
            outcome
        }
        _ => Err(Fault::Open),
    }
}

/// Reserves words of a take side, and shows them. Errors: `Ring`, `Mode`, `Open`; those of a start.
pub fn peek_take_of(
    member: &mut Member,
    ring: usize,
    words: &mut [Word64],
    how: How,
) -> Result<u32, Fault>
    ensures { OpensTake ring how words.old words.new member.old member.new result }
{
    if ring >= member.port.rings() {
        return Err(Fault::Ring);
    }
    match member.port.fabric.mode(ring, Side::Take) {
        Mode::Hts => (),
        Mode::Multi => return Err(Fault::Mode),
    }
    match member.port.span() {
        OpenSpan::Idle => {
            let port = &mut member.port;
            let (left, outcome) = peek_take(
                &port.fabric,
                &mut port.hand,
                ring,
                words,
                how,
                &mut member.shown,
            );
            member.left = left;
            outcome
        }
        _ => Err(Fault::Open),
    }
}

/// Finishes the put that the member has open. Errors: `NotOpen`; `Count`; `Pending`.
pub fn finish_put_of(member: &mut Member, words: &[Word64]) -> Result<u32, Fault>
    ensures { EndsPut words.now member.old member.new result }
{
    match member.port.span() {
        OpenSpan::Put(reserved) => {
            let port = &mut member.port;
            finish_put(&port.fabric, &mut port.hand, reserved, words)
        }
        _ => Err(Fault::NotOpen),
    }
}

/// Finishes the take that the member has open. Errors: `NotOpen`; `Count`; `Pending`.
pub fn finish_take_of(member: &mut Member, n: usize) -> Result<u32, Fault>
    ensures { EndsTake n member.old member.new result }
{
    match member.port.span() {
        OpenSpan::Take(reserved) => {
            let port = &mut member.port;
            finish_take(&port.fabric, &mut port.hand, reserved, n, &member.shown)
        }
        _ => Err(Fault::NotOpen),
    }
}
