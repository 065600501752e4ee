//! The forms of the steps of actors.

ghost use Rattle.std.specs.Prelude.{◌≡◌, IfOk};
ghost use Rattle.command_file.specs.Text.{texts};
ghost use Rattle.steps_file.specs.Forms.{act_of, step_of, span_step_of, local_of, settle_of, reserve_of, room_of, look_of, settle_put_by, settle_take_by};

use super::Command;
use super::item::items_of;
use super::word::{is_word, only_number, side_named};
use command_file::{how_of, number_of};
use ringcore_laws::{Items, Step};
use std::alloc::{AllocError, Global};

/// `A VERB ..`: a step of an actor.
pub fn parse_act(
    alloc: Global,
    actor: &[u8],
    words: &[&[u8]],
) -> Result<Option<Command>, AllocError>
    ensures { IfOk result (λ command. command ≡ act_of actor.now (texts words.now)) }
{
    let [verb, rest @ ..] = words else {
        return Ok(None);
    };
    let step = parse_step(alloc, verb, rest)?;
    match (number_of(actor), step) {
        (Some(actor), Some(step)) => Ok(Some(Command::Act(actor, step))),
        _ => Ok(None),
    }
}

/// The step in a verb and the words after it.
fn parse_step(alloc: Global, verb: &[u8], words: &[&[u8]]) -> Result<Option<Step>, AllocError>
    ensures { IfOk result (λ step. step ≡ step_of verb.now (texts words.now)) }
{
    if is_word(verb, b"look") {
        return Ok(parse_look(words));
    }
    if is_word(verb, b"room") {
        return Ok(parse_room(words));
    }
    parse_span_step(alloc, verb, words)
}

/// A step on a span, or a local one.
fn parse_span_step(alloc: Global, verb: &[u8], words: &[&[u8]]) -> Result<Option<Step>, AllocError>
    ensures { IfOk result (λ step. step ≡ span_step_of verb.now (texts words.now)) }
{
    if is_word(verb, b"reserve") {
        return Ok(parse_reserve(words));
    }
    if is_word(verb, b"settle") {
        let step = parse_settle(alloc, words)?;
        return Ok(step);
    }
    Ok(parse_local(verb, words))
}

/// A local step.
fn parse_local(verb: &[u8], words: &[&[u8]]) -> Option<Step>
    ensures { result ≡ local_of verb.now (texts words.now) }
{
    if is_word(verb, b"stash") {
        return only_number(words).map(Step::Stash);
    }
    if is_word(verb, b"unstash") {
        return only_number(words).map(Step::Unstash);
    }
    None
}

/// `R SIDE` of a look.
fn parse_look(words: &[&[u8]]) -> Option<Step>
    ensures { result ≡ look_of (texts words.now) }
{
    let [ring, side] = words else {
        return None;
    };
    let ring = number_of(ring)?;
    let side = side_named(side)?;
    Some(Step::Look(ring as usize, side))
}

/// `R SIDE` of a question for room.
fn parse_room(words: &[&[u8]]) -> Option<Step>
    ensures { result ≡ room_of (texts words.now) }
{
    let [ring, side] = words else {
        return None;
    };
    let ring = number_of(ring)?;
    let side = side_named(side)?;
    Some(Step::Room(ring as usize, side))
}

/// `R SIDE HOW N`
fn parse_reserve(words: &[&[u8]]) -> Option<Step>
    ensures { result ≡ reserve_of (texts words.now) }
{
    let [ring, side, how, n] = words else {
        return None;
    };
    let ring = number_of(ring)?;
    let side = side_named(side)?;
    let how = how_of(how)?;
    let n = number_of(n)?;
    Some(Step::Reserve(ring as usize, side, how, n))
}

/// `R put ITEM..` or `R take N`
fn parse_settle(alloc: Global, words: &[&[u8]]) -> Result<Option<Step>, AllocError>
    ensures { IfOk result (λ step. step ≡ settle_of (texts words.now)) }
{
    let [ring, side, rest @ ..] = words else {
        return Ok(None);
    };
    match *side {
        b"put" => {
            let items = items_of(alloc, rest)?;
            Ok(settle_put(number_of(ring), items))
        }
        b"take" => Ok(settle_take(number_of(ring), only_number(rest))),
        _ => Ok(None),
    }
}

/// A settle of a put, if the words were a ring and items.
fn settle_put(ring: Option<u64>, items: Option<Items>) -> Option<Step>
    ensures { result ≡ settle_put_by ring items }
{
    match (ring, items) {
        (Some(ring), Some(items)) => Some(Step::SettlePut(ring as usize, items)),
        _ => None,
    }
}

/// A settle of a take, if the words were a ring and a number.
fn settle_take(ring: Option<u64>, n: Option<u64>) -> Option<Step>
    ensures { result ≡ settle_take_by ring n }
{
    match (ring, n) {
        (Some(ring), Some(n)) => Some(Step::SettleTake(ring as usize, n)),
        _ => None,
    }
}
