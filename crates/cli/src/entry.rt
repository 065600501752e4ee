//! The whole program, given its arguments, a reader and two writers. Files and memory belong to one runtime, threads
//! may belong to another.

ghost use Rattle.std.specs.Prelude.{◌≡◌, ◌≤◌, IfOk, IfSome, IsOk, None, OnOk};
ghost use Rattle.std.specs.Io.KnownBytes.{Appends};
ghost use Rattle.cli.specs.Printed.{PrintsRingReplies, PrintsStepsReplies};

use crate::command_line::requests::{INPUT, Request, RunFiles, read_words};
use crate::fault::Fault;
use crate::one_line::OneLine;
use crate::progress::Progress;
use crate::run_answer::run_files;
use clap::Error;
use command_file::TextFault;
use ring_file::ring_text;
use std::fs;
use std::io::{IsTerminal, Read, Write};
use std::rt::Files;
use std::sync::Wait;
use std::thread::Threads;
use std::time::Clock;
use steps_file::steps_text;

/// Runs the program and returns its exit status: 0 on success, or if help or the version was requested, 1 after a
/// fault, which is printed in one line on `err`, and 2 if the command line is refused. If a run's input is a capture in
/// another format and `err` is a terminal, a hint follows in a second line. If `out` fails, that is the only fault
/// printed; if `err` fails, the status is the same. While a run reads its capture, a line on `err` shows its progress,
/// if `--progress` requests it, or if `err` is a terminal and the run takes longer than two seconds; it is erased
/// before the fault, if there is one, is printed. `input` is read if there are no words, and by a run whose capture is
/// `-`.
pub fn program<
    R: Files + AllocGlobal + Clock + Sync,
    T: Threads + Wait + Clock + Sync,
    I: Read + Send + Drop,
    O: Write,
    E: Write + IsTerminal + Send,
>(rt: &R, threads: &T, words: &[String], input: I, out: &mut O, err: &mut E) -> u8
where
    R::File: Send,
    ensures { result ≤ 2 }
{
    let done = match read_words(rt.alloc(), words) {
        Ok(Request::Ring(file)) => answer_ring(rt, file, input, out),
        Ok(Request::Steps(file)) => answer_steps(rt, file, input, out),
        Ok(Request::Run(files)) => answer_run(rt, threads, &files, input, out, err),
        Err(refusal) => return refuse(&refusal, out, err),
    };
    match done {
        Ok(()) => 0,
        Err(fault) => explain(fault, err),
    }
}

/// Reports that there was no memory for the arguments of the command line.
pub fn report_out_of_memory<E: Write>(err: &mut E) -> u8
    ensures { result ≡ 1 }
{
    tell(Fault::Memory, err)
}

/// Prints a fault, and at a terminal its hint, if it has one. What isn't a terminal gets the fault's line alone, since
/// a script may read it.
fn explain<E: Write + IsTerminal>(fault: Fault<'_>, err: &mut E) -> u8
    ensures { result ≡ 1 }
{
    let hint = fault.hint();
    let status = tell(fault, err);
    if let Some(hint) = hint {
        if err.is_terminal() {
            let _ = writeln!(err, "hint: {hint}");
        }
    }
    status
}

/// Prints a fault in one line, as far as `err` accepts it.
fn tell<E: Write>(fault: Fault<'_>, err: &mut E) -> u8
    ensures { result ≡ 1 }
{
    let _ = writeln!(err, "pktkit: {fault}");
    1
}

/// Prints why the command line is refused, or the help that it requests.
fn refuse<O: Write, E: Write>(refusal: &Error, out: &mut O, err: &mut E) -> u8
    ensures { result ≤ 2 }
{
    if refusal.kind() == clap::error::ErrorKind::OutOfMemory {
        return tell(Fault::Memory, err);
    }
    if refusal.use_stderr() {
        let _ = write!(err, "{refusal}");
        return 2;
    }
    match write!(out, "{refusal}") {
        Ok(()) => 0,
        Err(_) => tell(Fault::Output, err),
    }
}

/// Prints the replies to the ring commands of a file, or of standard input.
fn answer_ring<'a, R: Files + AllocGlobal, I: Read + Drop, O: Write>(
    rt: &R,
    file: Option<&'a str>,
    input: I,
    out: &mut O,
) -> Result<(), Fault<'a>>
    ensures { file.entry ≡ None → OnOk result (IfSome (I.remaining input)
        (PrintsRingReplies (O.contents out.old) (O.contents out.new))) }
{
    let bytes = read(rt, file, input)?;
    let mut replies = Vec::new(rt.alloc());
    let answered = ring_text(rt.alloc(), bytes.as_slice(), &mut replies);
    print(replies.as_slice(), out)?;
    text_result(answered)
}

/// Prints the replies to the steps of a file.
fn answer_steps<'a, R: Files + AllocGlobal, I: Read + Drop, O: Write>(
    rt: &R,
    file: Option<&'a str>,
    input: I,
    out: &mut O,
) -> Result<(), Fault<'a>>
    ensures { file.entry ≡ None → OnOk result (IfSome (I.remaining input)
        (PrintsStepsReplies (O.contents out.old) (O.contents out.new))) }
{
    let bytes = read(rt, file, input)?;
    let mut replies = Vec::new(rt.alloc());
    let answered = steps_text(rt.alloc(), bytes.as_slice(), &mut replies);
    print(replies.as_slice(), out)?;
    text_result(answered)
}

/// The fault of a command file, if it was not answered to its end.
fn text_result<'a>(answered: Result<(), TextFault>) -> Result<(), Fault<'a>>
    ensures { OnOk result (IsOk answered) }
{
    match answered {
        Ok(()) => Ok(()),
        Err(fault) => Err(Fault::Text(fault)),
    }
}

/// Prints the report of a run over a capture.
fn answer_run<
    'a,
    R: Files + AllocGlobal + Clock + Sync,
    T: Threads + Wait + Clock + Sync,
    I: Read + Send + Drop,
    O: Write,
    E: Write + IsTerminal + Send,
>(
    rt: &R,
    threads: &T,
    files: &RunFiles<'a>,
    input: I,
    out: &mut O,
    err: &mut E,
) -> Result<(), Fault<'a>>
where
    R::File: Send,
{
    let at_terminal = err.is_terminal();
    let mut progress = Progress::new(rt, err, files.progress, at_terminal);
    let report = run_files(rt, threads, files, input, &mut progress);
    progress.erase();
    print(report?.as_slice(), out)
}

/// The bytes of a file, or of standard input.
fn read<'a, R: Files + AllocGlobal, I: Read + Drop>(
    rt: &R,
    file: Option<&'a str>,
    mut input: I,
) -> Result<Vec<u8>, Fault<'a>>
    ensures { file.entry ≡ None → IfOk result (λ bytes. IfSome (I.remaining input) (λ known. bytes.items ≡ known)) }
{
    let name = file.unwrap_or(INPUT);
    let bytes = match file {
        Some(name) => fs::read(rt, name),
        None => {
            let mut bytes = Vec::new(rt.alloc());
            input.read_to_end(&mut bytes).map(|_| bytes)
        }
    };
    bytes.map_err(|error| Fault::of_file(&error, Fault::File(OneLine(name))))
}

/// Writes replies, if there are any.
fn print<'a, O: Write>(replies: &[u8], out: &mut O) -> Result<(), Fault<'a>>
    ensures { OnOk result (Appends (O.contents out.old) (O.contents out.new) replies.now) }
{
    if replies.is_empty() {
        return Ok(());
    }
    if out.write_all(replies).is_err() || out.flush().is_err() {
        return Err(Fault::Output);
    }
    Ok(())
}
