//! One thread's hand on a set of rings, and what it has open between two calls.
ghost use Rattle.std.specs.Prelude.{◌≡◌};
ghost use Rattle.capi.specs.Ends.{AreEndsOf};
ghost use Rattle.capi.specs.Members.{ArePlain, AreShown};
ghost use Rattle.fabric.specs.Hands.{rings_of};
ghost use Rattle.fabric.specs.Places.{IsPlaceOf};

use crate::rings::end::Ends;
use crate::rings::word64::Word64;
use burst::Slot;
use fabric::{Fabric, HandInPlace, Place};
use ringapi::{Port, Spares};
use std::sync::Arc;

/// The largest number of words in a call on a head/tail-sync side, which its word has room to count.
pub const MAX_WORDS: usize = 4095;

/// The largest number of words in a call on a multi side: no ring holds more.
pub const MAX_WORDS_MULTI: usize = 1_048_575;

/// Rings of words.
pub(crate) type Rings = Fabric<Word64, 4095, Slot<Word64>>;

/// A hand on them that stays in its member.
pub(crate) type WordHand = HandInPlace<Word64, 4095, Slot<Word64>>;

/// A hand with its rings.
pub(crate) type WordPort = Port<Word64, 4095, Slot<Word64>>;

/// The hands of threads that come later.
pub(crate) type WordSpares = Spares<Word64, 4095, Slot<Word64>>;

/// A hand with its rings, and what its calls leave.
#[derive(Drop)]
pub struct Member {
    pub port: WordPort,
    /// The words of an open take of a head/tail-sync side, from the front.
    pub shown: Box<[Word64; MAX_WORDS]>,
    /// How many more positions were free, or words were queued, after the last call.
    pub left: u64,
    /// The ring of the last put, and that of the last take: a call on the same ring needn't look it up.
    pub put_at: Place,
    pub take_at: Place,
    /// The sides that it has opened as ends.
    pub ends: Ends,
    pub spares: Arc<WordSpares>,
    pub ghost plain: { ArePlain (rings_of port.fabric.value) },
    pub ghost shows: { AreShown port.hand shown.value },
    pub ghost puts: { IsPlaceOf port.fabric.value put_at },
    pub ghost takes: { IsPlaceOf port.fabric.value take_at },
    pub ghost ended: { AreEndsOf port.fabric.value ends },
    pub ghost spare: { spares.value.lock.key ≡ port.fabric.value },
}
