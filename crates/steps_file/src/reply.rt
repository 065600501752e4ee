//! The replies of a steps file, as text.

ghost use Rattle.std.specs.Prelude.{◌≡◌, ◌++◌, OnOk, decimal};
ghost use Rattle.geom.specs.declared.plan.Mode.TheVariants.{Multi};
ghost use Rattle.steps_file.specs.Replies.{value_text, buffers_text, item_text, items_text, answer_text, place_text, mode_shown, mode_on};

use command_file::{write_number, write_two_numbers};
use geom::{Mode, RingPlan, Side, unpack};
use ringcore_laws::{Item, Place, Reply, Step};
use std::alloc::AllocError;

/// The mode in which a step shows values: Look and Reserve show the own word of their side, all others plain numbers.
pub fn mode_shown(rings: &[RingPlan], step: &Step) -> Mode
    ensures { result ≡ mode_shown rings.now step.now }
{
    match step {
        Step::Look(ring, side) => mode_on(rings.get(*ring).copied(), *side),
        Step::Reserve(ring, side, _, _) => mode_on(rings.get(*ring).copied(), *side),
        _ => Mode::Multi,
    }
}

/// The mode of a side of a ring, if there is one.
fn mode_on(plan: Option<RingPlan>, side: Side) -> Mode
    ensures { result ≡ mode_on plan side }
{
    match plan {
        Some(plan) => plan.mode(side),
        None => Mode::Multi,
    }
}

/// Writes the reply to a step that shows values in this mode, without its end of line.
pub fn answer_text(text: &mut Vec<u8>, mode: Mode, reply: &Reply) -> Result<(), AllocError>
    ensures { OnOk result (text.new.items ≡ text.old.items ++ answer_text mode reply.now) }
{
    match reply {
        Reply::Seen(value) => worded(text, b"seen ", mode, *value),
        Reply::Granted(start, count, left) => granted(text, *start, *count, *left),
        Reply::Done(count, items) => done(text, *count, items.as_slice()),
        Reply::Busy(value) => worded(text, b"busy ", mode, *value),
        Reply::Contended(value) => worded(text, b"contended ", mode, *value),
        Reply::NoRoom(left) => worded(text, b"noroom ", Mode::Multi, *left),
        Reply::NotYet(tail) => worded(text, b"notyet ", Mode::Multi, *tail),
        Reply::Worn => text.extend_from_slice(b"worn"),
        Reply::NoSpan => text.extend_from_slice(b"nospan"),
        Reply::BadCount => text.extend_from_slice(b"badcount"),
        Reply::NotYours => text.extend_from_slice(b"notyours"),
    }
}

/// Writes a value after its word.
fn worded(text: &mut Vec<u8>, word: &[u8], mode: Mode, value: u64) -> Result<(), AllocError>
    ensures { OnOk result (text.new.items ≡ text.old.items ++ (word.now ++ value_text mode value)) }
{
    text.extend_from_slice(word)?;
    match mode {
        Mode::Multi => write_number(text, value),
        Mode::Hts => {
            let (position, reserved) = unpack(value);
            write_two_numbers(text, b"", position, b"+", reserved)
        }
    }
}

/// Writes what a Reserve was granted.
fn granted(text: &mut Vec<u8>, start: u64, count: u64, left: u64) -> Result<(), AllocError>
    ensures { OnOk result (text.new.items ≡ text.old.items ++ answer_text Multi (Reply.Granted start count left)) }
{
    write_two_numbers(text, b"granted ", start, b" ", count)?;
    text.extend_from_slice(b" left ")?;
    write_number(text, left)
}

/// Writes how many positions were settled, and their items.
fn done(text: &mut Vec<u8>, count: u64, items: &[Item]) -> Result<(), AllocError>
    ensures { OnOk result (text.new.items ≡ text.old.items ++ answer_text Multi (Reply.Done count items.now)) }
{
    text.extend_from_slice(b"done ")?;
    write_number(text, count)?;
    list(text, items)
}

/// Writes items, each after a space.
fn list(text: &mut Vec<u8>, items: &[Item]) -> Result<(), AllocError>
    ensures { OnOk result (text.new.items ≡ text.old.items ++ items_text items.now) }
{
    for item in items {
        text.push(b' ')?;
        item_text(text, item)?;
    }
    Ok(())
}

/// Writes an item.
fn item_text(text: &mut Vec<u8>, item: &Item) -> Result<(), AllocError>
    ensures { OnOk result (text.new.items ≡ text.old.items ++ item_text item.now) }
{
    match item {
        Item::Word(n) => {
            text.push(b'x')?;
            write_number(text, *n)
        }
        Item::Buffers(numbers) => {
            text.push(b'b')?;
            buffers_text(text, numbers.as_slice())
        }
    }
}

/// Writes the numbers of buffers, with a sign between them.
fn buffers_text(text: &mut Vec<u8>, buffers: &[u64]) -> Result<(), AllocError>
    ensures { OnOk result (text.new.items ≡ text.old.items ++ buffers_text buffers.now) }
{
    let [first, rest @ ..] = buffers else {
        return Ok(());
    };
    write_number(text, *first)?;
    for b in rest {
        text.push(b'+')?;
        write_number(text, *b)?;
    }
    Ok(())
}

/// Writes where a buffer is, without the end of line.
pub fn place_text(text: &mut Vec<u8>, place: Place) -> Result<(), AllocError>
    ensures { OnOk result (text.new.items ≡ text.old.items ++ place_text place) }
{
    match place {
        Place::AtRing(ring, position) => write_two_numbers(
            text,
            b"ring ",
            ring as u64,
            b" at ",
            position,
        ),
        Place::Held(actor) => held(text, b"held ", actor),
        Place::Cached(actor) => held(text, b"cached ", actor),
        Place::Nowhere => text.extend_from_slice(b"nowhere"),
    }
}

/// Writes an actor after a word.
fn held(text: &mut Vec<u8>, word: &[u8], actor: usize) -> Result<(), AllocError>
    ensures { OnOk result (text.new.items ≡ text.old.items ++ (word.now ++ decimal actor)) }
{
    text.extend_from_slice(word)?;
    write_number(text, actor as u64)
}
