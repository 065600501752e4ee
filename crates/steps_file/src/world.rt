//! The world of rings and actors: making a step, and looking up a buffer.

ghost use Rattle.std.specs.Prelude.{OnOk};
ghost use Rattle.ringcore.specs.Histories.{StepExists};
ghost use Rattle.steps_file.specs.Replies.{reply_in, place_in, answer_text, place_text, mode_shown};
ghost use Rattle.steps_file.specs.Standing.{GoesOn, Tells};

use crate::reply::{answer_text, mode_shown, place_text};
use geom::RingPlan;
use ringcore::World;
use ringcore_laws::Step;
use std::alloc::AllocError;

/// Makes a step on these rings, and answers it with a line.
pub fn answer_step(
    world: &mut World,
    rings: &[RingPlan],
    actor: usize,
    step: Step,
    reply: &mut Vec<u8>,
) -> Result<(), AllocError>
    requires { StepExists world.old actor step }
    ensures world { OnOk result (GoesOn world.old world.new actor step) }
    ensures reply { OnOk result (Tells world.old
        (λ h. answer_text (mode_shown rings.now step) (reply_in h actor step)) reply.old.items reply.new.items) }
{
    let mode = mode_shown(rings, &step);
    let answer = world.step(actor, step)?;
    answer_text(reply, mode, &answer)?;
    reply.push(b'\n')?;
    Ok(())
}

/// Answers where a buffer is, with a line.
pub fn answer_place(world: &World, b: u64, reply: &mut Vec<u8>) -> Result<(), AllocError>
    ensures { OnOk result (Tells world.now (λ h. place_text (place_in h b)) reply.old.items reply.new.items) }
{
    place_text(reply, world.place(b))?;
    reply.push(b'\n')?;
    Ok(())
}
