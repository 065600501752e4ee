//! Opening an end of a hand, holding its side, and giving it up.
ghost use Rattle.std.specs.Prelude.{◌≡◌};
ghost use Rattle.capi.specs.EndCalls.{EndHolds, EndOpens, EndReleases, GivesUp, state_after};
ghost use Rattle.geom.specs.declared.plan.Side.TheVariants.{Put, Take};

use crate::rings::end::{End, EndState};
use crate::rings::fault::Fault;
use crate::rings::holding::release_take;
use crate::rings::member::{MAX_WORDS, Member};
use crate::rings::span_calls::finish_put_of;
use fabric::OpenSpan;
use geom::{Mode, Side};

/// Opens the end of a side on a ring. Errors: `Ring`; `Open` if that side has an end already. Nothing is changed then.
pub fn open_end(member: &mut Member, side: Side, ring: usize) -> Result<u32, Fault>
    ensures { EndOpens side ring member.old member.new result }
{
    if ring >= member.port.rings() {
        return Err(Fault::Ring);
    }
    match member.ends.on(side).state {
        EndState::Closed => (),
        _ => return Err(Fault::Open),
    }
    let at = member.port.fabric.place(ring);
    member.ends.set(
        side,
        End {
            at,
            state: EndState::Open,
        },
    );
    Ok(0)
}

/// Holds the side of an end from its next word on, with at most so many positions at a time. Errors: `NotOpen`; `Mode`
/// if the side is multi; `Count`. Nothing is changed then.
pub fn hold_end(member: &mut Member, side: Side, most: usize) -> Result<u32, Fault>
    ensures { EndHolds side most member.old member.new result }
{
    let end = member.ends.on(side);
    match end.state {
        EndState::Closed => return Err(Fault::NotOpen),
        _ => (),
    }
    match end.at.mode(side) {
        Mode::Multi => return Err(Fault::Mode),
        Mode::Hts => (),
    }
    if most == 0 || most > MAX_WORDS {
        return Err(Fault::Count);
    }
    member.ends.set(
        side,
        End {
            at: end.at,
            state: EndState::Holds(most),
        },
    );
    Ok(0)
}

/// Settles the put span that the end holds, with no word.
fn give_up_put(member: &mut Member) -> Result<u32, Fault>
    ensures { GivesUp Put member.old member.new result }
{
    match member.ends.put.state {
        EndState::Holds(_) => (),
        _ => return Ok(0),
    }
    match member.port.span() {
        OpenSpan::Put(reserved) => {
            if reserved.ring() != member.ends.put.at.ring() {
                return Ok(0);
            }
            finish_put_of(member, &[])
        }
        _ => Ok(0),
    }
}

/// Gives up the take side that the end holds.
fn give_up_take(member: &mut Member) -> Result<u32, Fault>
    ensures { GivesUp Take member.old member.new result }
{
    match member.ends.take.state {
        EndState::Holds(_) => (),
        _ => return Ok(0),
    }
    match member.port.span() {
        OpenSpan::Held(reserved) => {
            if reserved.ring() != member.ends.take.at.ring() {
                return Ok(0);
            }
            release_take(member, &mut [])
        }
        _ => Ok(0),
    }
}

/// Gives up what the end of a side holds.
fn give_up(member: &mut Member, side: Side) -> Result<u32, Fault>
    ensures { GivesUp side member.old member.new result }
{
    match side {
        Side::Put => give_up_put(member),
        Side::Take => give_up_take(member),
    }
}

/// The state of an end that gave its side up.
fn state_after(closes: bool) -> EndState
    ensures { result ≡ state_after closes }
{
    if closes {
        EndState::Closed
    } else {
        EndState::Open
    }
}

/// Gives up what an end holds, and closes it, or leaves it open. Errors: `NotOpen`.
pub fn release_end(member: &mut Member, side: Side, closes: bool) -> Result<u32, Fault>
    ensures { EndReleases side closes member.old member.new result }
{
    let end = member.ends.on(side);
    match end.state {
        EndState::Closed => return Err(Fault::NotOpen),
        _ => (),
    }
    match give_up(member, side) {
        Ok(_) => (),
        Err(why) => return Err(why),
    }
    let state = state_after(closes);
    member.ends.set(side, End { at: end.at, state });
    Ok(0)
}
