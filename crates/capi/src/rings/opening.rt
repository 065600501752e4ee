//! The plans of rings that C asks for.
ghost use Rattle.std.specs.Prelude.{◌≡◌, ◌<◌, ◌≤◌, IfErr, IfOk, length};
ghost use Rattle.capi.specs.Plans.{AreAsked, RefusesPlans, count_bits as bits_of, last_asked, mode_asked, plan_asked};

use crate::rings::fault::Fault;
use geom::{Geometry, Mode, RingPlan};
use std::alloc::Global;

/// The most rings of a set.
pub(crate) const MAX_RINGS: usize = 64;

/// A ring that C asks for, as `hk_ring_plan` of `hokhtura.h`.
#[repr(C)]
#[derive(Clone, Copy)]
pub struct Asked {
    /// How many words it takes if `exact` is 1. If `exact` is 0, how many slots it has, of which one stays empty.
    pub size: u32,
    pub exact: u32,
    /// 0 multi, 1 head/tail sync.
    pub put: u32,
    pub take: u32,
    /// The greatest position; 0 for the greatest that the modes allow.
    pub last: u64,
    /// 0: for later versions.
    pub reserved: u64,
}

/// How many bits of a word are for the count of reserved positions. A multi side has no count; the count of a
/// head/tail-sync side goes up to 4,095.
fn count_bits(put: Mode, take: Mode) -> u32
    ensures value { result ≡ bits_of put take }
    ensures few { (0 < result) × (result ≤ 12) }
{
    match put {
        Mode::Hts => 12,
        Mode::Multi => match take {
            Mode::Hts => 12,
            Mode::Multi => 1,
        },
    }
}

/// The greatest position.
fn last(asked: u64, bits: u32) -> u64
    requires { bits < 64 }
    ensures { result ≡ last_asked asked bits }
{
    if asked == 0 { u64::MAX >> bits } else { asked }
}

fn mode(number: u32) -> Option<Mode>
    ensures { result ≡ mode_asked number }
{
    match number {
        0 => Some(Mode::Multi),
        1 => Some(Mode::Hts),
        _ => None,
    }
}

/// The plan of a ring; `None` if there is no such ring.
fn plan(asked: &Asked) -> Option<RingPlan>
    ensures { result ≡ plan_asked asked.now }
{
    let size = asked.size as u64;
    let made = match asked.exact {
        0 => Geometry::power(size),
        1 => Geometry::exact(size),
        _ => return None,
    };
    let Ok(geometry) = made else {
        return None;
    };
    let put = mode(asked.put)?;
    let take = mode(asked.take)?;
    if asked.reserved != 0 {
        return None;
    }
    let bits = count_bits(put, take);
    let geometry = geometry.with_positions(last(asked.last, bits), bits)?;
    Some(RingPlan {
        geometry,
        put,
        take,
        free: false,
    })
}

/// The plans of rings. Errors: `Plan` if there is no such ring; `Memory`.
pub(crate) fn plans(alloc: Global, asked: &[Asked]) -> Result<Vec<RingPlan>, Fault>
    requires few { length asked.now ≤ MAX_RINGS }
    ensures made { IfOk result (λ made. AreAsked asked.now made.items) }
    ensures refused { IfErr result (λ why. RefusesPlans asked.now why) }
{
    let Ok(mut made) = Vec::with_capacity(alloc, asked.len()) else {
        return Err(Fault::Memory);
    };
    for i in 0..asked.len() {
        let Some(one) = plan(&asked[i]) else {
            return Err(Fault::Plan);
        };
        if made.push(one).is_err() {
            return Err(Fault::Memory);
        }
    }
    Ok(made)
}
