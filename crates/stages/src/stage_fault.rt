//! Why a stage of a run in threads can't continue.
ghost use Rattle.std.specs.Prelude.{◌≡◌, ◌⊎◌};
ghost use Rattle.stages.specs.StageFaults.{fault_of_stage, lower_of};

use run_one::RunFault;

/// Why a stage of a run in threads can't continue.
#[derive(Clone, Copy)]
pub(crate) enum StageFault {
    /// A packet or a segment isn't of the kind required on its ring.
    Window,
    /// The positions of a ring are used up.
    Worn,
}

impl StageFault {
    /// The fault of the run with that name.
    pub(crate) fn to_run_fault(self) -> RunFault
        ensures { result ≡ fault_of_stage self }
    {
        match self {
            StageFault::Window => RunFault::Window,
            StageFault::Worn => RunFault::Worn,
        }
    }
}

/// The fault with the lower number; of two with the same number the first.
pub(crate) fn lower(a: RunFault, b: RunFault) -> RunFault
    ensures value { result ≡ lower_of a b }
    ensures either { (result ≡ a) ⊎ (result ≡ b) }
{
    if b.number() < a.number() { b } else { a }
}
