//! Hands for threads that come later.
ghost use Rattle.std.specs.Prelude.{◌≡◌, IfErr, IfOk, IfSome};
ghost use Rattle.fabric.specs.Hands.{IsHandOf, view};
ghost use Rattle.ringapi.specs.Spares.{AreSpare, IsSameBut, IsSpareOf};

use crate::keyed_lock::{Keeps, KeyedLock, Taken};
use burst::Tagged;
use fabric::{Fabric, Hand, SplitFault, Stored};
use std::alloc::{AllocError, Global};

/// The most hands that are kept: each has at most half the parts of the one before it.
const MAX_SPARES: usize = 64;

/// How often a call tries at most if other threads come first.
const TRIES: u32 = 1024;

/// Why there is no hand for a further thread.
#[derive(Drop, Clone, Copy, Debug)]
pub enum SpareFault {
    /// Other threads came first at each try.
    Busy,
    /// No hand is left, or the one that is there has one part.
    Empty,
    /// There was no memory for the row of its buffers.
    Memory,
}

/// What is always true of the hands that are kept: they are of the fabric that they were made for.
pub struct OfFabric;

impl<T: Tagged, const N: usize, S: Stored<T>> Keeps<Vec<Hand<T, S>>, Fabric<T, N, S>> for OfFabric {
    ghost use Rattle.ringapi.specs.Spares.{AreSpare};

    ghost holds = { λ f hands. AreSpare f hands.items };
}

/// The hands of a fabric for threads that come later, which all its ports share. A hand that is split for each of them
/// has one part after 63 splits. Here the hands have falling powers of two as parts, like the digits of a binary
/// counter, and a hand with one part is split off the last of them. So 2^62 hands can be given out.
#[derive(Drop)]
pub struct Spares<T: Tagged, const N: usize, S: Stored<T> = Option<T>> {
    pub lock: KeyedLock<Vec<Hand<T, S>>, Fabric<T, N, S>, OfFabric>,
}

/// A hand with one part, split off the last one. The others come back.
fn thin<T: Tagged, const N: usize, S: Stored<T>>(
    alloc: Global,
    f: &Fabric<T, N, S>,
    hands: &mut Vec<Hand<T, S>>,
) -> Result<Hand<T, S>, SpareFault>
    requires spare { AreSpare f.now hands.old.items }
    ensures rest { AreSpare f.now hands.new.items }
    ensures given { IfOk result (IsSpareOf f.now) }
{
    let Some(mut hand) = hands.pop() else {
        return Err(SpareFault::Empty);
    };
    for _i in 0..MAX_SPARES {
        match hand.split(alloc, f) {
            Ok((first, second)) => {
                hand = second;
                match hands.push(first) {
                    Ok(()) => (),
                    Err(_) => return Ok(hand),
                }
            }
            Err((whole, SplitFault::TooMany)) => return Ok(whole),
            Err((whole, SplitFault::Memory)) => {
                match hands.push(whole) {
                    Ok(()) => (),
                    Err(_) => (),
                }
                return Err(SpareFault::Memory);
            }
        }
    }
    Ok(hand)
}

impl<T: Tagged, const N: usize, S: Stored<T>> Spares<T, N, S> {
    /// For the hands of a fabric. There is none yet. Takes memory.
    pub fn new(alloc: Global, f: &Fabric<T, N, S>) -> Result<Spares<T, N, S>, AllocError>
        ensures key { IfOk result (λ s. s.lock.key ≡ f.now) }
    {
        let hands = Vec::with_capacity(alloc, MAX_SPARES)?;
        match KeyedLock::new(alloc, hands, f) {
            Ok(lock) => Ok(Spares { lock }),
            Err(_) => Err(AllocError),
        }
    }

    /// All the hands, if no other thread has them.
    fn take_out(&self, f: &Fabric<T, N, S>) -> Option<Taken<Vec<Hand<T, S>>, Fabric<T, N, S>>>
        requires key { self.now.lock.key ≡ f.now }
        ensures spare { IfSome result (λ t. AreSpare f.now t.value.items) }
        ensures lock { IfSome result (λ t. t.ticket ≡ self.now.lock.id) }
    {
        for _i in 1..TRIES {
            match self.lock.try_take() {
                Some(taken) => return Some(taken),
                None => std::hint::spin_loop(),
            }
        }
        self.lock.try_take()
    }

    /// Adds a hand that has done nothing. If other threads come first at each try, or there is no memory, it comes
    /// back.
    pub fn add(&self, f: &Fabric<T, N, S>, hand: Hand<T, S>) -> Result<(), Hand<T, S>>
        requires key { self.now.lock.key ≡ f.now }
        requires spare { IsSpareOf f.now hand }
        ensures back { IfErr result (IsSpareOf f.now) }
    {
        let Some(mut taken) = self.take_out(f) else {
            return Err(hand);
        };
        let added = match taken.value.push(hand) {
            Ok(()) => Ok(()),
            Err(failed) => Err(failed.value),
        };
        self.lock.put_back(taken);
        added
    }

    /// A hand for a further thread. Takes the memory of a byte for each buffer, up to 63 times.
    ///
    /// Errors: `Busy`; `Empty`; `Memory`.
    pub fn next(&self, alloc: Global, f: &Fabric<T, N, S>) -> Result<Hand<T, S>, SpareFault>
        requires key { self.now.lock.key ≡ f.now }
        ensures given { IfOk result (IsSpareOf f.now) }
    {
        let Some(mut taken) = self.take_out(f) else {
            return Err(SpareFault::Busy);
        };
        let given = thin(alloc, f, &mut taken.value);
        self.lock.put_back(taken);
        given
    }

    /// `next`, or if there is no hand yet, half of this one's parts are added first. The hand comes back.
    ///
    /// Errors: `Busy`; `Empty`: the hand has one part; `Memory`.
    pub fn split(
        &self,
        alloc: Global,
        f: &Fabric<T, N, S>,
        hand: Hand<T, S>,
    ) -> (Hand<T, S>, Result<Hand<T, S>, SpareFault>)
        requires key { self.now.lock.key ≡ f.now }
        requires of { IsHandOf f.now hand }
        ensures first { IsHandOf f.now result.0 × IsSameBut (view hand) (view result.0) }
        ensures second { IfOk result.1 (IsSpareOf f.now) }
    {
        match self.next(alloc, f) {
            Err(SpareFault::Empty) => (),
            given => return (hand, given),
        }
        match hand.split(alloc, f) {
            Ok((hand, other)) => match self.add(f, other) {
                Ok(()) => (hand, self.next(alloc, f)),
                Err(other) => (hand, Ok(other)),
            },
            Err((hand, SplitFault::TooMany)) => (hand, Err(SpareFault::Empty)),
            Err((hand, SplitFault::Memory)) => (hand, Err(SpareFault::Memory)),
        }
    }
}
