//! The outcome of the reader of a run in threads.
ghost use Rattle.std.specs.Prelude.{◌≡◌, ◌⊎◌, None, Some, Err};
ghost use Rattle.pcapio.specs.Reader.{source_of};
ghost use Rattle.stages.specs.Feeding.{ReadFailed, IsHere, IsNoCapture, WroteNothing};
ghost use Rattle.stages.specs.StageFaults.{answer_with};
ghost use Rattle.run_one.specs.declared.fault.RunFault.TheVariants.{Memory, Thread};

use crate::stage_fault::{StageFault, lower};
use pcapio::{Counted, Reader};
use run_one::{InputTotals, RunFault};
use stages_laws::Run;
use std::io::Read;

/// The input's device, if its thread could be started, and what was read from it.
#[derive(Drop)]
pub(crate) struct ReaderOutcome<J: Run, R> {
    pub(crate) device: Option<Counted<R>>,
    pub(crate) answer: Result<InputTotals<J>, RunFault>,
    pub ghost failed: { ReadFailed J.read_failures device answer },
    pub ghost here: { IsHere device answer },
    pub ghost refused: { IsNoCapture J.input answer },
    pub ghost unwritten: { WroteNothing answer },
}

impl<J: Run, R: Read> ReaderOutcome<J, R> {
    /// Nothing was read: memory was refused, or the thread of a worker couldn't be started.
    pub(crate) fn unread(reader: Reader<R>, fault: RunFault) -> ReaderOutcome<J, R>
        requires { (fault ≡ Memory) ⊎ (fault ≡ Thread) }
        ensures answer { result.answer ≡ Err fault }
        ensures device { result.device ≡ Some (source_of reader) }
    {
        ReaderOutcome {
            device: Some(reader.into_inner()),
            answer: Err(fault),
        }
    }

    /// The reader's own thread couldn't be started, and what was given to it is lost.
    pub(crate) fn lost() -> ReaderOutcome<J, R>
        ensures answer { result.answer ≡ Err Thread }
        ensures device { result.device ≡ None }
    {
        ReaderOutcome {
            device: None,
            answer: Err(RunFault::Thread),
        }
    }

    /// What is left of this outcome once the sink has ended: of two faults the lower one.
    pub(crate) fn with(self, drained: Result<(), StageFault>) -> ReaderOutcome<J, R>
        ensures answer { result.answer ≡ answer_with self.answer drained }
        ensures device { result.device ≡ self.device }
    {
        let ReaderOutcome { device, answer, .. } = self;
        match drained {
            Ok(()) => ReaderOutcome { device, answer },
            Err(found) => match answer {
                Ok(_) => ReaderOutcome {
                    device,
                    answer: Err(found.to_run_fault()),
                },
                Err(fault) => ReaderOutcome {
                    device,
                    answer: Err(lower(fault, found.to_run_fault())),
                },
            },
        }
    }
}
