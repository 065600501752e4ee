//! The forms of plan lines.

ghost use Rattle.std.specs.Prelude.{◌≡◌, IfOk};
ghost use Rattle.command_file.specs.Text.{texts};
ghost use Rattle.steps_file.specs.Forms.{ring_line, ring_by, ring_with, geometry_for, actors_line, give_line};

use super::PlanLine;
use super::item::numbers_of;
use super::word::mode_named;
use command_file::number_of;
use geom::{Geometry, Mode, RingPlan};
use std::alloc::{AllocError, Global};

/// `ring KIND N MODE..`, by the words after `ring`.
pub fn parse_ring(words: &[&[u8]]) -> Option<PlanLine>
    ensures { result ≡ ring_line (texts words.now) }
{
    let [kind, n, modes @ ..] = words else {
        return None;
    };
    let geometry = geometry_for(kind, number_of(n))?;
    ring_by(geometry, modes).map(PlanLine::Ring)
}

/// The geometry of a ring of this kind with this number, unless that is an error.
fn geometry_for(kind: &[u8], n: Option<u64>) -> Option<Geometry>
    ensures { result ≡ geometry_for kind.now n }
{
    let n = n?;
    match kind {
        b"power" => Geometry::power(n).ok(),
        b"exact" => Geometry::exact(n).ok(),
        _ => None,
    }
}

/// The ring with this geometry by the words after it: one or two modes, and then optionally `free`.
fn ring_by(geometry: Geometry, words: &[&[u8]]) -> Option<RingPlan>
    ensures { result ≡ ring_by geometry (texts words.now) }
{
    match words {
        [mode] => ring_with(geometry, false, mode_named(mode), mode_named(mode)),
        [mode, b"free"] => ring_with(geometry, true, mode_named(mode), mode_named(mode)),
        [put, take] => ring_with(geometry, false, mode_named(put), mode_named(take)),
        [put, take, b"free"] => ring_with(geometry, true, mode_named(put), mode_named(take)),
        _ => None,
    }
}

/// The ring with these modes, if both words were modes.
fn ring_with(
    geometry: Geometry,
    free: bool,
    put: Option<Mode>,
    take: Option<Mode>,
) -> Option<RingPlan>
    ensures { result ≡ ring_with geometry free put take }
{
    match (put, take) {
        (Some(put), Some(take)) => Some(RingPlan {
            geometry,
            put,
            take,
            free,
        }),
        _ => None,
    }
}

/// `actors N`, by the words after `actors`.
pub fn parse_actors(words: &[&[u8]]) -> Option<PlanLine>
    ensures { result ≡ actors_line (texts words.now) }
{
    let [n] = words else {
        return None;
    };
    number_of(n).map(PlanLine::Actors)
}

/// `give A B..`, by the words after `give`.
pub fn parse_give(alloc: Global, words: &[&[u8]]) -> Result<Option<PlanLine>, AllocError>
    ensures { IfOk result (λ line. line ≡ give_line (texts words.now)) }
{
    let [actor, buffers @ ..] = words else {
        return Ok(None);
    };
    if buffers.is_empty() {
        return Ok(None);
    }
    let numbers = numbers_of(alloc, buffers)?;
    match (number_of(actor), numbers) {
        (Some(actor), Some(numbers)) => Ok(Some(PlanLine::Give(actor, numbers))),
        _ => Ok(None),
    }
}
