//! One line of a steps file: its words, and their command.

ghost use Rattle.std.specs.Prelude.{◌≡◌, [], ℕ, OnOk, Err, IsTrue, true, false};
ghost use Rattle.command_file.specs.Text.{words_of};
ghost use Rattle.command_file.specs.Files.{is_admitted, reply_at, state_past};
ghost use Rattle.steps_file.specs.Plans.{IsLawful};
ghost use Rattle.steps_file.specs.Replies.{State, steps_file, judges};
ghost use Rattle.steps_file.specs.Standing.{Keeps, PlanRefused};

use crate::command::Command;
use crate::stage::Stage;
use command_file::{TextFault, is_blank_or_comment, split_words};
use std::alloc::Global;

/// Answers the line with this number, whose words go into `words`.
pub fn answer_line<'a>(
    alloc: Global,
    stage: &mut Stage,
    number: u64,
    line: &'a [u8],
    words: &mut Vec<&'a [u8]>,
    reply: &mut Vec<u8>,
) -> Result<(), TextFault>
    requires { reply.old.items ≡ [] }
    ensures stage { OnOk result ((s : State) → Keeps stage.old s
        → Keeps stage.new (state_past steps_file s (words_of line.now))) }
    ensures admitted { OnOk result ((s : State) → Keeps stage.old s
        → is_admitted steps_file s (words_of line.now) ≡ true) }
    ensures reply { OnOk result ((s : State) → Keeps stage.old s
        → reply.new.items ≡ reply_at steps_file s (words_of line.now)) }
    ensures bad { (n : ℕ) → result ≡ Err (TextFault.BadLine n) → (s : State) → Keeps stage.old s
        → is_admitted steps_file s (words_of line.now) ≡ false }
    ensures judged { (n : ℕ) → result ≡ Err (TextFault.BadLine n) → (s : State) → Keeps stage.old s
        → IsTrue (judges (words_of line.now)) → IsLawful s.plan }
    ensures number { (n : ℕ) → result ≡ Err (TextFault.BadLine n) → n ≡ number }
    ensures plan { result ≡ Err TextFault.BadPlan → (s : State) → Keeps stage.old s
        → IsTrue (judges (words_of line.now)) × PlanRefused s }
{
    split_words(line, words).map_err(|_| TextFault::Memory)?;
    if is_blank_or_comment(words.as_slice()) {
        return Ok(());
    }
    let Ok(command) = Command::parse(alloc, words.as_slice()) else {
        return Err(TextFault::Memory);
    };
    stage.answer(alloc, number, command, reply)
}
