//! The answer to one command of a ring file: what it does to the ring, and the text of its reply.

ghost use Rattle.std.specs.Prelude.{◌≡◌, ◌++◌, OnOk};
ghost use Rattle.command_file.specs.Text.{texts};
ghost use Rattle.ring_file.specs.Replies.{ring_past, command_text, contents, ring_contents, made, made_text, after_put, after_take, put_text, take_text, words_text};

use crate::command::Command;
use command_file::write_two_numbers;
use geom::{GeomFault, Geometry, How};
use ringcore::OneRing;
use std::alloc::{AllocError, Global};
use std::collections::VecDeque;

/// The ring of a file: its items are words of the file.
pub type Ring<'a> = OneRing<&'a [u8]>;

/// Answers a command with the items that it names. After an error the ring may have changed, and the reply may be
/// incomplete.
pub fn answer<'a>(
    alloc: Global,
    ring: &mut Option<Ring<'a>>,
    command: Command,
    items: &[&'a [u8]],
    reply: &mut Vec<u8>,
) -> Result<(), AllocError>
    ensures ring { OnOk result (contents ring.new ≡ ring_past (contents ring.old) command (texts items.now)) }
    ensures text { OnOk result (reply.new.items
        ≡ reply.old.items ++ command_text (contents ring.old) command (texts items.now)) }
{
    match command {
        Command::Power(count) => make(alloc, ring, Geometry::power(count), reply),
        Command::Exact(capacity) => make(alloc, ring, Geometry::exact(capacity), reply),
        Command::Put(how) => match ring {
            Some(ring) => put(alloc, ring, how, items, reply),
            None => reply.extend_from_slice(b"no ring"),
        },
        Command::Take(how, n) => match ring {
            Some(ring) => take(alloc, ring, how, n, reply),
            None => reply.extend_from_slice(b"no ring"),
        },
        Command::Count => match ring {
            Some(ring) => write_two_numbers(reply, b"count ", ring.count(), b" free ", ring.free()),
            None => reply.extend_from_slice(b"no ring"),
        },
    }
}

/// Answers `ring`: a new empty ring, or the error; the previous ring then stays.
fn make<'a>(
    alloc: Global,
    ring: &mut Option<Ring<'a>>,
    geometry: Result<Geometry, GeomFault>,
    reply: &mut Vec<u8>,
) -> Result<(), AllocError>
    ensures ring { OnOk result (contents ring.new ≡ made geometry (contents ring.old)) }
    ensures text { OnOk result (reply.new.items ≡ reply.old.items ++ made_text geometry) }
{
    match geometry {
        Ok(geometry) => {
            *ring = Some(OneRing::new(alloc, geometry)?);
            write_two_numbers(
                reply,
                b"ring size ",
                geometry.size(),
                b" capacity ",
                geometry.capacity(),
            )
        }
        Err(GeomFault::NotPower) => reply.extend_from_slice(b"refused 1 NotPower"),
        Err(GeomFault::TooSmall) => reply.extend_from_slice(b"refused 2 TooSmall"),
        Err(GeomFault::TooLarge) => reply.extend_from_slice(b"refused 3 TooLarge"),
    }
}

/// Answers `put`.
fn put<'a>(
    alloc: Global,
    ring: &mut Ring<'a>,
    how: How,
    items: &[&'a [u8]],
    reply: &mut Vec<u8>,
) -> Result<(), AllocError>
    ensures ring { OnOk result (ring_contents ring.new ≡ after_put (ring_contents ring.old) how (texts items.now)) }
    ensures text { OnOk result (reply.new.items
        ≡ reply.old.items ++ put_text (ring_contents ring.old) how (texts items.now)) }
{
    let mut queue: VecDeque<&[u8]> = items.iter().copied().collect(alloc)?;
    let moved = ring.put(how, &mut queue);
    write_two_numbers(reply, b"put ", moved.count, b" left ", moved.left)
}

/// Answers `take`.
fn take<'a>(
    alloc: Global,
    ring: &mut Ring<'a>,
    how: How,
    n: u64,
    reply: &mut Vec<u8>,
) -> Result<(), AllocError>
    ensures ring { OnOk result (ring_contents ring.new ≡ after_take (ring_contents ring.old) how n) }
    ensures text { OnOk result (reply.new.items ≡ reply.old.items ++ take_text (ring_contents ring.old) how n) }
{
    let mut taken = Vec::new(alloc);
    let moved = ring.take(how, n, &mut taken)?;
    write_two_numbers(reply, b"take ", moved.count, b" left ", moved.left)?;
    list(reply, taken.as_slice())
}

/// Writes items, each after a space.
fn list(reply: &mut Vec<u8>, items: &[&[u8]]) -> Result<(), AllocError>
    ensures { OnOk result (reply.new.items ≡ reply.old.items ++ words_text (texts items.now)) }
{
    for item in items {
        reply.push(b' ')?;
        reply.extend_from_slice(item)?;
    }
    Ok(())
}
