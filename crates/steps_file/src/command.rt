//! The commands of a steps file, and the forms of their lines.

ghost use Rattle.std.specs.Prelude.{◌≡◌, IfOk};
ghost use Rattle.command_file.specs.Text.{texts};
ghost use Rattle.steps_file.specs.Forms.{form_of, actor_form_of};

mod act;
mod item;
mod plan_line;
mod word;

use act::parse_act;
use geom::RingPlan;
use plan_line::{parse_actors, parse_give, parse_ring};
use ringcore_laws::{Numbers, Step};
use std::alloc::{AllocError, Global};
use word::{is_word, only_number};

/// A line of the plan at the start of a steps file.
#[derive(Drop, Debug)]
pub enum PlanLine {
    /// `ring KIND N MODE..`: the next ring.
    Ring(RingPlan),
    /// `actors N`: the number of actors.
    Actors(u64),
    /// `give A B..`: buffers that an actor holds at the start.
    Give(u64, Numbers),
}

/// The content of a line of a steps file.
#[derive(Drop, Debug)]
pub enum Command {
    /// A line of the plan.
    Plan(PlanLine),
    /// `A VERB ..`: a step of an actor.
    Act(u64, Step),
    /// `place B`: asks where a buffer is.
    Ask(u64),
}

impl Command {
    /// The command in these words, if they have one of the forms.
    pub fn parse(alloc: Global, words: &[&[u8]]) -> Result<Option<Command>, AllocError>
        ensures { IfOk result (λ command. command ≡ form_of (texts words.now)) }
    {
        let [first, rest @ ..] = words else {
            return Ok(None);
        };
        if is_word(first, b"ring") {
            return Ok(parse_ring(rest).map(Command::Plan));
        }
        if is_word(first, b"actors") {
            return Ok(parse_actors(rest).map(Command::Plan));
        }
        parse_of_actor(alloc, first, rest)
    }
}

/// A line of an actor, or `place B`.
fn parse_of_actor(
    alloc: Global,
    first: &[u8],
    rest: &[&[u8]],
) -> Result<Option<Command>, AllocError>
    ensures { IfOk result (λ command. command ≡ actor_form_of first.now (texts rest.now)) }
{
    if is_word(first, b"give") {
        let line = parse_give(alloc, rest)?;
        return Ok(line.map(Command::Plan));
    }
    if is_word(first, b"place") {
        return Ok(only_number(rest).map(Command::Ask));
    }
    parse_act(alloc, first, rest)
}
