//! Why a run of the program ended early: one line on the error stream, after `pktkit: `. If the input of a run is a
//! capture in another format, a second line at a terminal says which, and what converts it.

use crate::one_line::OneLine;
use crate::other_format::{FirstBytes, OtherFormat};
use command_file::TextFault;
use pcapio::CapFault;
use settings::SettingsFault;
use stages::RunFault;
use std::alloc::AllocError;
use std::io::{self, ErrorKind};
use thiserror::Error;

/// Why a run of the program ended early.
#[derive(Debug, Drop, Error)]
pub enum Fault<'a> {
    /// A file that the command line names can't be opened or read.
    #[error("file {0}")]
    File(OneLine<&'a str>),
    /// The file of a port can't be created, or is a file that the run reads, or another port's file.
    #[error("file {0}")]
    PortFile(OneLine<String>),
    /// A file of commands wasn't answered to its end.
    #[error("{0}")]
    Text(TextFault),
    /// A document isn't valid settings.
    #[error("settings {0}")]
    Settings(SettingsFault),
    /// The input of a run isn't a valid capture; it may be one in another format.
    #[error("capture {0}")]
    Capture(CapFault, Option<OtherFormat>),
    /// The input of a run can't be read.
    #[error("read")]
    Read,
    /// The file of this port can't be written.
    #[error("write {0}")]
    Write(u32),
    /// A thread couldn't be started.
    #[error("thread")]
    Thread,
    /// The input of a run has more records than can be counted.
    #[error("window")]
    Window,
    /// The positions of a ring are used up.
    #[error("worn")]
    Worn,
    /// Out of memory.
    #[error("memory")]
    Memory,
    /// The output can't be written.
    #[error("output")]
    Output,
}

impl<'a> Fault<'a> {
    /// The fault for a file that can't be opened, created or read, where `fault` carries its name.
    pub fn of_file(error: &io::Error, fault: Fault<'a>) -> Fault<'a> {
        match error.kind() {
            ErrorKind::OutOfMemory => Fault::Memory,
            _ => fault,
        }
    }

    /// The fault for a document that isn't valid settings.
    pub fn of_settings(fault: SettingsFault) -> Fault<'a> {
        match fault {
            SettingsFault::Memory => Fault::Memory,
            fault => Fault::Settings(fault),
        }
    }

    /// The fault for a run over a capture that failed.
    pub fn of_run(fault: RunFault) -> Fault<'a> {
        match fault {
            RunFault::Memory => Fault::Memory,
            RunFault::Thread => Fault::Thread,
            RunFault::Read => Fault::Read,
            RunFault::Write(port) => Fault::Write(port),
            RunFault::Capture(fault) => Fault::Capture(fault, None),
            RunFault::Window => Fault::Window,
            RunFault::Worn => Fault::Worn,
        }
    }

    /// The fault for a run that failed over a capture with these first bytes. If they aren't those of classic pcap,
    /// they say whether it is in another format.
    pub(crate) fn of_input(fault: RunFault, first: &FirstBytes) -> Fault<'a> {
        match fault {
            RunFault::Capture(CapFault::NotPcap) => {
                Fault::Capture(CapFault::NotPcap, first.format())
            }
            fault => Fault::of_run(fault),
        }
    }

    /// What else is said of it at a terminal, in a second line.
    pub fn hint(&self) -> Option<OtherFormat> {
        match self {
            Fault::Capture(_, format) => *format,
            _ => None,
        }
    }
}

impl From<AllocError> for Fault<'_> {
    fn from(_error: AllocError) -> Self {
        Fault::Memory
    }
}
