//! How many buffers the pool of a hand has.
ghost use Rattle.std.specs.Prelude.{◌≡◌};
ghost use Rattle.fabric.specs.Hands.{view};

use crate::hand::Hand;
use crate::stored::Stored;
use burst::Tagged;

impl<T: Tagged, S: Stored<T>> Hand<T, S> {
    /// How many buffers the fabric has, whoever holds them: their numbers are below this. No step on a word.
    pub fn buffers(&self) -> usize
        ensures { result ≡ (view self.now).pool }
    {
        self.share.owned.len()
    }
}
