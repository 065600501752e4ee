//! Ends: one side of one ring with the port that uses it, for a caller that puts or takes there word by word.
ghost use Rattle.fabric.specs.Places.{IsPlaceOf};

use crate::port::Port;
use burst::Tagged;
use fabric::{Place, Stored};

/// The put side of one ring, and the port that puts there. If it is dropped, its port is.
#[derive(Drop)]
#[must_use]
pub struct Producer<T: Tagged, const N: usize, S: Stored<T> = Option<T>> {
    pub(crate) port: Port<T, N, S>,
    pub(crate) at: Place,
    pub ghost of: { IsPlaceOf port.fabric.value at },
}

/// The take side of one ring, and the port that takes there. If it is dropped, its port is.
#[derive(Drop)]
#[must_use]
pub struct Consumer<T: Tagged, const N: usize, S: Stored<T> = Option<T>> {
    pub(crate) port: Port<T, N, S>,
    pub(crate) at: Place,
    pub ghost of: { IsPlaceOf port.fabric.value at },
}
