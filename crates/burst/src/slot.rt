//! A place in memory that a value is moved into and out of; what a moved value leaves is not overwritten.
ghost use Rattle.std.specs.Prelude.{◌≡◌, Option, Some, None};
ghost use denote.Struct.Lending.{lent_at};
ghost use Rattle.burst.specs.Slot.{owned};

use std::marker::{Model, Move, Owns};
use std::mem::ManuallyDrop;

/// Room for a value. Contracts see the value that is in the place, or none: its bits are then those of a value that was
/// moved out. A value still in a place that is dropped is forgotten, not dropped.
pub struct Slot<U> {
    bits: U,
}

impl<U> Owns for Slot<U> {
    ghost Value = { Option U };

    ghost shr_at = { λ d p κ. owned (λ u. lent_at Fields p (record { bits = u }) κ) d };
}

impl<U> Move for Slot<U> {
    ghost own_val = { λ d vs. owned (λ u. Fields.own_val (record { bits = u }) vs) d };
}

impl<U> Slot<U> {
    /// A place that contains the value.
    #[inline]
    pub fn of(value: U) -> Slot<U>
        ensures { result ≡ Some value }
    {
        Slot { bits: value }
    }

    /// Moves the place with its content. What stays is a place without a value, with the same bits.
    #[inline]
    pub fn lift(&mut self) -> Slot<U>
        ensures whole { result ≡ self.old }
        ensures left { self.new ≡ None }
    {
        let place = self as *mut Slot<U>;
        unsafe { place.read() }
    }

    /// A place without a value, with the bits of this one.
    #[inline]
    pub fn vacant(sample: U) -> Slot<U>
        ensures { result ≡ None }
    {
        let mut place = Slot::of(sample);
        place.lift().forget();
        place
    }

    /// The value in the place.
    #[inline]
    pub fn into_value(self) -> U
        requires { (u : U) × (self ≡ Some u) }
        ensures { self ≡ Some result }
    {
        let Self { bits } = self;
        bits
    }

    /// Moves the value out.
    #[inline]
    pub fn read(&mut self) -> U
        requires { (u : U) × (self.old ≡ Some u) }
        ensures value { self.old ≡ Some result }
        ensures left { self.new ≡ None }
    {
        self.lift().into_value()
    }

    /// Drops the place, and forgets its value if it has one.
    #[inline]
    pub fn forget(self) {
        let _forgotten = unsafe { ManuallyDrop::new_unchecked(self) };
    }
}

impl<U> Drop for Slot<U> {
    fn drop(self) {
        self.forget();
    }
}

unsafe impl<U: Send> Send for Slot<U> {}

unsafe impl<U: Sync> Sync for Slot<U> {}
