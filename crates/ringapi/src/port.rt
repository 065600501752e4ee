//! A hand and its rings in one value.
ghost use Rattle.fabric.specs.InPlace.{IsPlacedOf};

use burst::Tagged;
use fabric::{Fabric, HandInPlace, Stored};
use std::sync::Arc;

/// A hand, with or without an open span, and the rings that it comes from: for a caller that doesn't want to pass a
/// fabric to each call, or cannot know what the calls of a hand require. If it is dropped, its buffers are leaked, and
/// an open span stays reserved forever.
#[derive(Drop)]
#[must_use]
pub struct Port<T: Tagged, const N: usize, S: Stored<T> = Option<T>> {
    pub fabric: Arc<Fabric<T, N, S>>,
    pub hand: HandInPlace<T, N, S>,
    pub ghost of: { IsPlacedOf fabric.value hand },
}
