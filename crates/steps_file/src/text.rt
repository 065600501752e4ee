//! The text of a steps file, line by line.

ghost use Rattle.std.specs.Prelude.{◌≡◌, ◌-◌, ℕ, length, OnOk, Err};
ghost use Rattle.command_file.specs.Text.{lines_of};
ghost use Rattle.command_file.specs.Files.{left_by, IsAnsweredTo, IsFirstBad};
ghost use Rattle.steps_file.specs.Plans.{IsLawful};
ghost use Rattle.steps_file.specs.Replies.{steps_file, IsJudgedBy, IsJudgedAt, IsBadPlan};

use crate::line::answer_line;
use crate::stage::Stage;
use command_file::{TextFault, strip_carriage_return};
use std::alloc::Global;

/// Appends the replies to a steps file to `out`: first the lines of its plan, and then steps of actors and questions
/// about where a buffer is, each answered by the rules of shared rings.
///
/// The plan is checked at the first step line, or at the end. Errors: 1 `BadLine(n)`, if line n is the first that has
/// no valid form, is a plan line after a step line, or names an actor or a ring that the plan doesn't have: the replies
/// to the lines before it have then been appended to `out`; 2 `Memory`: the replies to some of the first lines have
/// then been appended; 3 `BadPlan`, if the plan isn't valid as a whole: `out` is unchanged.
pub fn steps_text(alloc: Global, bytes: &[u8], out: &mut Vec<u8>) -> Result<(), TextFault>
    ensures ok { let lines = lines_of bytes.now in
        OnOk result (IsAnsweredTo steps_file (length lines) lines out.old.items out.new.items
        × IsLawful (left_by steps_file (length lines) lines).plan) }
    ensures first_bad { (n : ℕ) → result ≡ Err (TextFault.BadLine n)
        → IsFirstBad steps_file n (lines_of bytes.now) × IsJudgedAt n (lines_of bytes.now) }
    ensures before_bad { (n : ℕ) → result ≡ Err (TextFault.BadLine n) → let lines = lines_of bytes.now in
        IsAnsweredTo steps_file (n - 1) lines out.old.items out.new.items × IsJudgedBy (n - 1) lines }
    ensures memory { result ≡ Err TextFault.Memory → let lines = lines_of bytes.now in
        (k : ℕ) × IsAnsweredTo steps_file k lines out.old.items out.new.items × IsJudgedBy k lines }
    ensures bad_plan { result ≡ Err TextFault.BadPlan → (k : ℕ) × IsBadPlan k (lines_of bytes.now) }
    ensures none_replied { result ≡ Err TextFault.BadPlan → out.new.items ≡ out.old.items }
{
    let mut stage = Stage::new(alloc);
    let mut words = Vec::new(alloc);
    let mut reply = Vec::new(alloc);
    let mut number = 0;
    for line in bytes.split(|b| *b == b'\n') {
        number += 1;
        reply.clear();
        answer_line(
            alloc,
            &mut stage,
            number,
            strip_carriage_return(line),
            &mut words,
            &mut reply,
        )?;
        if out.extend_from_slice(reply.as_slice()).is_err() {
            return Err(TextFault::Memory);
        }
    }
    stage.judge(alloc)
}
