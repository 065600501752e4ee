//! Why a run failed.
ghost use Rattle.std.specs.Prelude.{◌≡◌};
ghost use Rattle.run_one.specs.Faults.{number_of};

use pcapio::CapFault;

/// Why a run failed. Of several faults the one with the lowest number is returned.
#[derive(Clone, Copy, Debug, PartialEq, Eq)]
pub enum RunFault {
    /// 1: memory was refused.
    Memory,
    /// 2: a thread couldn't be started.
    Thread,
    /// 3: the input's device failed.
    Read,
    /// 4: the device of this port failed.
    Write(u32),
    /// 5: the input isn't a valid capture.
    Capture(CapFault),
    /// 6: the input has more records than can be counted, or a record didn't arrive at the sink.
    Window,
    /// 7: the positions of a ring are used up.
    Worn,
}

impl RunFault {
    /// The number of the fault.
    pub fn number(self) -> u8
        ensures { result ≡ number_of self }
    {
        match self {
            RunFault::Memory => 1,
            RunFault::Thread => 2,
            RunFault::Read => 3,
            RunFault::Write(_) => 4,
            RunFault::Capture(_) => 5,
            RunFault::Window => 6,
            RunFault::Worn => 7,
        }
    }
}
