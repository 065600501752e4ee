//! What a hand remembers of the side that it was on last.
ghost use Rattle.std.specs.Prelude.{◌≡◌};

/// Which word is that side's own, what the hand left there, and how many positions it saw to be free, or queued, from
/// there on. If that is 0, the hand remembers nothing.
#[derive(Clone, Copy)]
pub struct Recent {
    pub(crate) own: usize,
    pub(crate) word: u64,
    pub(crate) left: u64,
}

impl Recent {
    /// Nothing remembered.
    pub(crate) fn none() -> Recent
        ensures { result.left ≡ 0 }
    {
        Recent {
            own: 0,
            word: 0,
            left: 0,
        }
    }
}
