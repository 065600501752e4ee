//! Which answers make a waiting call try again.
ghost use Rattle.std.specs.Prelude.{◌≡◌, true, false};
ghost use Rattle.ringapi.specs.Faults.{IsTransientRefusal};
ghost use Rattle.ringapi.specs.Puts.{IsUnfinishedPut};
ghost use Rattle.ringapi.specs.Takes.{IsUnfinishedTake};
ghost use Rattle.ringapi.specs.Views.{IsTransient};

use crate::answers::{PutAnswer, Refusal, TakeAnswer};
use burst::Tagged;
use fabric::{StartFault, Stored};

/// Whether the next start may succeed although the caller does nothing in between: after `Busy` and `Contended`.
#[inline]
pub fn is_transient(fault: StartFault) -> bool
    ensures sound { result ≡ true → IsTransient fault }
    ensures none { result ≡ false → IsTransient fault → ⊥ }
{
    match fault {
        StartFault::Busy(_) => true,
        StartFault::Contended(_) => true,
        _ => false,
    }
}

impl Refusal {
    /// Whether the next try may succeed although the caller does nothing in between.
    #[inline]
    pub fn is_transient(self) -> bool
        ensures sound { result ≡ true → IsTransientRefusal self }
        ensures none { result ≡ false → IsTransientRefusal self → ⊥ }
    {
        match self {
            Refusal::Start(fault) => is_transient(fault),
            Refusal::NotYours => false,
        }
    }
}

impl<T: Tagged, const N: usize, S: Stored<T>> PutAnswer<'_, T, N, S> {
    /// Whether a waiting put tries again: after `Busy` and `Contended`, and if its span is open.
    pub fn should_retry(&self) -> bool
        ensures sound { result ≡ true → IsUnfinishedPut self.now }
        ensures none { result ≡ false → IsUnfinishedPut self.now → ⊥ }
    {
        match self {
            PutAnswer::Done(_, _) => false,
            PutAnswer::Refused(_, refusal) => refusal.is_transient(),
            PutAnswer::Open(_, _) => true,
        }
    }
}

impl<T: Tagged, const N: usize, S: Stored<T>> TakeAnswer<'_, T, N, S> {
    /// Whether a waiting take tries again: after `Busy` and `Contended`, and if its span is open.
    pub fn should_retry(&self) -> bool
        ensures sound { result ≡ true → IsUnfinishedTake self.now }
        ensures none { result ≡ false → IsUnfinishedTake self.now → ⊥ }
    {
        match self {
            TakeAnswer::Done(_, _) => false,
            TakeAnswer::Refused(_, fault) => is_transient(*fault),
            TakeAnswer::Open(_, _) => true,
        }
    }
}
