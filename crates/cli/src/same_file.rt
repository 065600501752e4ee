//! Finds names of a run that refer to the same file. Creating a port's file empties it, so it must not be a file that
//! the run reads, nor the file of another port.

use crate::command_line::requests::{INPUT, RunFiles};
use crate::fault::Fault;
use crate::one_line::OneLine;
use crate::run_answer::port_name;
use std::fs::{self, Metadata};
use std::io::{self, ErrorKind};
use std::os::unix::fs::MetadataExt;
use std::rt::Files;

/// The device and inode number of a regular file, which are the same under all its names (stat(2)).
#[derive(Clone, Copy, PartialEq, Eq)]
pub struct FileId {
    dev: u64,
    ino: u64,
}

impl FileId {
    /// The identity of a regular file. A device or a pipe has no content that could be emptied. `None` also if the
    /// system doesn't number its files.
    pub fn of(about: &Metadata) -> Option<FileId> {
        if !about.is_file() || about.ino() == 0 {
            return None;
        }
        Some(FileId {
            dev: about.dev(),
            ino: about.ino(),
        })
    }
}

/// Another name for the file that standard input is, if it is a file.
const INPUT_FILE: &str = "/dev/stdin";

/// Refuses a run in which a port's file is the settings, the capture, or the file of another port. Links are followed.
/// Nothing is created or emptied. A file that doesn't exist yet can't be one of the others.
pub fn check_ports<'a, R: Files + AllocGlobal>(
    rt: &R,
    files: &RunFiles<'a>,
    count: usize,
) -> Result<(), Fault<'a>> {
    let mut taken = Vec::new(rt.alloc());
    note(&mut taken, fs::metadata(rt, files.config))?;
    let input = if files.input == INPUT {
        INPUT_FILE
    } else {
        files.input
    };
    note(&mut taken, fs::metadata(rt, input))?;
    for port in 0..count {
        let name = port_name(rt.alloc(), files.out, port)?;
        if note(&mut taken, fs::metadata(rt, name.as_str()))? {
            return Err(Fault::PortFile(OneLine(name)));
        }
    }
    Ok(())
}

/// Whether a file is one of those noted before; it is then noted.
pub fn note<'a>(taken: &mut Vec<FileId>, about: io::Result<Metadata>) -> Result<bool, Fault<'a>> {
    let id = match about {
        Ok(about) => FileId::of(&about),
        Err(error) if error.kind() == ErrorKind::OutOfMemory => return Err(Fault::Memory),
        Err(_) => None,
    };
    let Some(id) = id else {
        return Ok(false);
    };
    if taken.contains(&id) {
        return Ok(true);
    }
    match taken.push(id) {
        Ok(()) => Ok(false),
        Err(_) => Err(Fault::Memory),
    }
}
