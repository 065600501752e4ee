//! An end: a side of one ring, opened by a hand that puts or takes there word by word.
ghost use Rattle.std.specs.Prelude.{◌≡◌};
ghost use Rattle.capi.specs.declared.rings.end.EndState.TheVariants as end_state;

use fabric::Place;
use geom::Side;

/// What an end does with each word.
#[derive(Drop, Clone, Copy)]
pub enum EndState {
    /// The hand hasn't opened this side.
    Closed,
    /// Each word is a whole call.
    Open,
    /// The end holds its side, which is head/tail-sync: it reserves up to so many positions at a time, and each word
    /// then takes one store.
    Holds(usize),
}

/// A side of a ring, and where the ring is.
#[derive(Drop, Clone, Copy)]
pub struct End {
    pub at: Place,
    pub state: EndState,
}

/// The ends of a hand.
#[derive(Drop, Clone, Copy)]
pub struct Ends {
    pub put: End,
    pub take: End,
}

impl Ends {
    ghost use Rattle.capi.specs.Ends.{end_on, with_end};

    /// Ends that aren't open.
    pub(crate) fn closed(at: Place) -> Ends
        ensures at { (result.put.at ≡ at) × (result.take.at ≡ at) }
        ensures closed { (result.put.state ≡ end_state.Closed) × (result.take.state ≡ end_state.Closed) }
    {
        let same = at;
        let put = End {
            at,
            state: EndState::Closed,
        };
        let take = End {
            at: same,
            state: EndState::Closed,
        };
        Ends { put, take }
    }

    /// The end of a side.
    #[inline(always)]
    pub(crate) fn on(&self, side: Side) -> End
        ensures { result ≡ end_on self.now side }
    {
        match side {
            Side::Put => self.put,
            Side::Take => self.take,
        }
    }

    /// Changes the end of a side.
    pub(crate) fn set(&mut self, side: Side, end: End)
        ensures { self.new ≡ with_end self.old side end }
    {
        match side {
            Side::Put => self.put = end,
            Side::Take => self.take = end,
        }
    }
}
