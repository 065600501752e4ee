//! The program `pktkit`: rings driven by a file of commands, and captures forwarded by routes. `main` only passes on
//! the arguments and the standard streams.
#![tactic(auto)]

use cli::{program, report_out_of_memory, skip_program_name};
use std::alloc::AllocError;
use std::env;
use std::io::{ErrorKind, IsTerminal, Write};
use std::process::ExitCode;

/// The exit status of a refused command line.
const REFUSED: u8 = 2;

/// What is printed at a terminal if there are no arguments.
const READING: &[u8] = b"pktkit: reading ring commands from standard input; see pktkit --help\n";

fn main(rt: HostRuntime) -> ExitCode {
    let words = match env::args(&rt) {
        Ok(words) => skip_program_name(rt.alloc(), words),
        Err(error) if error.kind() == ErrorKind::OutOfMemory => Err(AllocError),
        Err(_) => return ExitCode::from(REFUSED),
    };
    let Ok(words) = words else {
        return ExitCode::from(report_out_of_memory(&mut rt.stderr()));
    };
    if words.is_empty() && rt.stdin().is_terminal() {
        // everything works without this line, too
        let _ = rt.stderr().write_all(READING);
    }
    let status = program(
        &rt,
        &rt,
        words.as_slice(),
        rt.stdin(),
        &mut rt.stdout(),
        &mut rt.stderr(),
    );
    ExitCode::from(status)
}
