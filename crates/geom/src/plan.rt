//! The plan of a ring: its geometry, the mode of each side, and whether it holds the free buffers.

ghost use Rattle.std.specs.Prelude.{◌≡◌, ◌↔◌, IsTrue};
ghost use Rattle.geom.specs.declared.plan.Mode.TheVariants.{Hts};
ghost use Rattle.geom.specs.declared.plan.Side.{Side};
ghost use Rattle.geom.specs.Fit.{AllFit, Fits};
ghost use Rattle.geom.specs.Plan.{mode_of, granted};

use crate::geometry::Geometry;

/// The maximum number of rings that actors or threads share.
pub const MAX_RINGS: usize = 64;

/// The maximum number of actors.
pub const MAX_ACTORS: usize = 64;

/// The maximum number of buffers.
pub const MAX_BUFFERS: u32 = 65_536;

/// How the words of one side of a ring are kept.
#[derive(Clone, Copy, Debug, PartialEq, Eq)]
pub enum Mode {
    /// Any number of producers, or of consumers, each with an open span of its own: a head and a tail word.
    Multi,
    /// Head/tail sync: one open span at a time, and one word for head and tail.
    Hts,
}

/// A side of a ring: producers put, consumers take.
#[derive(Clone, Copy, Debug, PartialEq, Eq)]
pub enum Side {
    /// The producers' side.
    Put,
    /// The consumers' side.
    Take,
}

/// How much of a request has to be granted.
#[derive(Clone, Copy, Debug, PartialEq, Eq)]
pub enum How {
    /// All of it, or nothing.
    Bulk,
    /// As much as there is.
    Burst,
}

impl How {
    /// How many of `n` are granted when there is room for `room`: bulk grants all or none, burst as many as fit.
    pub const fn granted(self, n: u64, room: u64) -> u64
        ensures { result ≡ granted self n room }
    {
        match self {
            How::Bulk if n > room => 0,
            How::Bulk => n,
            How::Burst if n > room => room,
            How::Burst => n,
        }
    }
}

/// The plan of a ring.
#[derive(Clone, Copy, Debug)]
pub struct RingPlan {
    /// The number of slots and the capacity.
    pub geometry: Geometry,
    /// The mode of the put side.
    pub put: Mode,
    /// The mode of the take side.
    pub take: Mode,
    /// Whether the ring holds free buffers: each item carries exactly one, and there is always room for one more.
    pub free: bool,
}

impl RingPlan {
    /// The plan of a ring with the same mode on both sides.
    pub const fn same_mode(geometry: Geometry, mode: Mode, free: bool) -> RingPlan
        ensures { result ≡ record { geometry = geometry; put = mode; take = mode; free = free } }
    {
        RingPlan {
            geometry,
            put: mode,
            take: mode,
            free,
        }
    }

    /// The mode of a side.
    pub const fn mode(self, side: Side) -> Mode
        ensures { result ≡ mode_of self side }
    {
        match side {
            Side::Put => self.put,
            Side::Take => self.take,
        }
    }

    /// Whether a side of the ring has a head/tail-sync word.
    const fn has_hts(self) -> bool
        ensures { IsTrue result ↔ (side : Side) × (mode_of self side ≡ Hts) }
    {
        matches!(self.put, Mode::Hts) || matches!(self.take, Mode::Hts)
    }

    /// Whether the ring can be used with this many buffers, by spans of at most `longest` positions: a free ring needs
    /// room for all buffers, and a head/tail-sync word room for the count of each span.
    pub fn fits(self, buffers: u64, longest: u64) -> bool
        ensures { IsTrue result ↔ Fits self buffers longest }
    {
        let capacity = self.geometry.capacity();
        let range = self.geometry.range();
        if self.free && buffers > capacity {
            return false;
        }
        !self.has_hts() || longest < range
    }
}

/// Whether each of the rings can be used with this many buffers, by spans of at most `longest` positions.
pub fn all_fit(rings: &[RingPlan], buffers: u64, longest: u64) -> bool
    ensures { IsTrue result ↔ AllFit rings.now buffers longest }
{
    for plan in rings {
        if !plan.fits(buffers, longest) {
            return false;
        }
    }
    true
}
