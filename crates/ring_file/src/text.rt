//! The replies to a file of ring commands.

ghost use Rattle.std.specs.Prelude.{◌≡◌, ℕ, ◌-◌, ◌++◌, [], true, false, length, OnOk, Some, Err};
ghost use Rattle.command_file.specs.Text.{lines_of, texts, words_of};
ghost use Rattle.command_file.specs.Files.{is_admitted, reply_at, state_past, IsAnsweredTo, IsFirstBad};
ghost use Rattle.ring_file.specs.Commands.{items_named};
ghost use Rattle.ring_file.specs.Replies.{contents, done, told, ring_file};

use crate::answer::{Ring, answer};
use crate::command::Command;
use command_file::{TextFault, is_blank_or_comment, split_words, strip_carriage_return};
use std::alloc::{AllocError, Global};

/// Appends the replies to a file of ring commands to `out`.
///
/// Errors: 1 `BadLine(n)`, if line n is the first without a valid form: the replies to the lines before it have then
/// been appended to `out`; 2 `Memory`: the replies to some of the first lines have then been appended.
pub fn ring_text(alloc: Global, bytes: &[u8], out: &mut Vec<u8>) -> Result<(), TextFault>
    ensures ok { let lines = lines_of bytes.now in
        OnOk result (IsAnsweredTo ring_file (length lines) lines out.old.items out.new.items) }
    ensures first_bad { (n : ℕ) → result ≡ Err (TextFault.BadLine n) → IsFirstBad ring_file n (lines_of bytes.now) }
    ensures before_bad { (n : ℕ) → result ≡ Err (TextFault.BadLine n)
        → IsAnsweredTo ring_file (n - 1) (lines_of bytes.now) out.old.items out.new.items }
    ensures memory { result ≡ Err TextFault.Memory
        → (k : ℕ) × IsAnsweredTo ring_file k (lines_of bytes.now) out.old.items out.new.items }
    ensures no_plan { result ≡ Err TextFault.BadPlan → ⊥ }
{
    let mut ring = None;
    let mut words = Vec::new(alloc);
    let mut reply = Vec::new(alloc);
    let mut number = 0;
    for line in bytes.split(|b| *b == b'\n') {
        number += 1;
        reply.clear();
        answer_line(
            alloc,
            &mut ring,
            number,
            strip_carriage_return(line),
            &mut words,
            &mut reply,
        )?;
        if out.extend_from_slice(reply.as_slice()).is_err() {
            return Err(TextFault::Memory);
        }
    }
    Ok(())
}

/// Answers the line with this number, whose words go into `words`.
fn answer_line<'a>(
    alloc: Global,
    ring: &mut Option<Ring<'a>>,
    number: u64,
    line: &'a [u8],
    words: &mut Vec<&'a [u8]>,
    reply: &mut Vec<u8>,
) -> Result<(), TextFault>
    requires { reply.old.items ≡ [] }
    ensures admitted { OnOk result (is_admitted ring_file (contents ring.old) (words_of line.now) ≡ true) }
    ensures ring { OnOk result (contents ring.new ≡ state_past ring_file (contents ring.old) (words_of line.now)) }
    ensures reply { OnOk result (reply.new.items ≡ reply_at ring_file (contents ring.old) (words_of line.now)) }
    ensures bad { (n : ℕ) → result ≡ Err (TextFault.BadLine n)
        → is_admitted ring_file (contents ring.old) (words_of line.now) ≡ false }
    ensures number { (n : ℕ) → result ≡ Err (TextFault.BadLine n) → n ≡ number }
    ensures no_plan { result ≡ Err TextFault.BadPlan → ⊥ }
{
    split_words(line, words).map_err(|_| TextFault::Memory)?;
    if is_blank_or_comment(words.as_slice()) {
        return Ok(());
    }
    let Some(command) = Command::parse(words.as_slice()) else {
        return Err(TextFault::BadLine(number));
    };
    answer_command(alloc, ring, command, words.as_slice(), reply).map_err(|_| TextFault::Memory)
}

/// Answers a command, with the words of its line, with a line.
fn answer_command<'a>(
    alloc: Global,
    ring: &mut Option<Ring<'a>>,
    command: Command,
    words: &[&'a [u8]],
    reply: &mut Vec<u8>,
) -> Result<(), AllocError>
    ensures ring { OnOk result (contents ring.new ≡ done (contents ring.old) (texts words.now) (Some command)) }
    ensures reply { OnOk result (reply.new.items
        ≡ reply.old.items ++ told (contents ring.old) (texts words.now) (Some command)) }
{
    answer(alloc, ring, command, items(words), reply)?;
    reply.push(b'\n')?;
    Ok(())
}

/// The items that a `put` names: the words after the first two.
fn items<'w, 'a>(words: &'w [&'a [u8]]) -> &'w [&'a [u8]]
    ensures { texts result.now ≡ items_named (texts words.now) }
{
    &words[words.len().min(2)..]
}
