//! The run over a capture: its files are opened in order, the capture is forwarded by one thread or by several, and the
//! report is made.

ghost use Rattle.std.specs.Prelude.{◌≡◌, ◌≤◌, ◌++◌, IfOk, codes, decimal, vec_len};
ghost use Rattle.counters.specs.Report.{report_of};

use crate::command_line::requests::{INPUT, RunFiles};
use crate::fault::Fault;
use crate::one_line::OneLine;
use crate::other_format::FirstBytes;
use crate::progress::{Progress, Watched};
use crate::same_file::{FileId, check_ports, note};
use either::Either;
use itoa::Buffer;
use pcapio::Counted;
use settings::Settings;
use stages::{Open, RunFault, Summary, run_one, run_threads};
use std::alloc::{AllocError, Global};
use std::fs::{self, OpenFile};
use std::io::{Read, Write};
use std::rt::Files;
use std::sync::Wait;
use std::thread::Threads;
use std::time::Clock;

/// The report of a run over these files. The settings are read first, then the capture is opened, then the files of the
/// ports are created or emptied, and then the run begins: a fault leaves the files that come later untouched. A port's
/// file that is one of the other files is a fault before any file is created or emptied. The capture `-` is what
/// `input` has. `progress` counts what is read of the capture.
pub(crate) fn run_files<
    'a,
    R: Files + AllocGlobal + Clock + Sync,
    T: Threads + Wait + Clock + Sync,
    I: Read + Send + Drop,
    E: Write + Send,
>(
    rt: &R,
    threads: &T,
    files: &RunFiles<'a>,
    input: I,
    progress: &mut Progress<'_, R, E>,
) -> Result<Vec<u8>, Fault<'a>>
where
    R::File: Send,
{
    let settings = read_settings(rt, files.config)?;
    let device = open_capture(rt, files.input, input)?;
    let mut first = FirstBytes::new();
    let input = Counted::new(Watched {
        device,
        progress,
        first: &mut first,
    });
    check_ports(rt, files, settings.ports.sources.len())?;
    let ports = create_ports(rt, files.out, settings.ports.sources.len())?;
    let workers = files.workers.count(threads);
    let summary = forward(threads, rt.alloc(), workers, input, ports, &settings);
    match summary {
        Ok(summary) => Ok(report(rt.alloc(), &summary)?),
        Err(fault) => Err(Fault::of_input(fault, &first)),
    }
}

/// The run over a capture, by one thread or by several. Its devices are closed.
fn forward<T: Threads + Wait + Clock + Sync, I: Read + Send + Drop, W: Write + Drop>(
    threads: &T,
    alloc: Global,
    workers: usize,
    input: Counted<I>,
    ports: Vec<Counted<W>>,
    settings: &Settings,
) -> Result<Summary, RunFault>
    requires at_most { workers ≤ 16 }
    requires ports { vec_len ports ≡ vec_len settings.now.ports.sources }
{
    if workers == 0 {
        let (_input, _ports, summary) = run_one(alloc, input, ports, settings);
        return summary;
    }
    let (_input, _ports, summary) = run_threads(
        threads, alloc, &Open, workers, input, ports, settings,
    );
    summary
}

/// The capture of this name, or the input, if the name is `-`.
fn open_capture<'a, R: Files + AllocGlobal, I: Drop>(
    rt: &R,
    name: &'a str,
    input: I,
) -> Result<Either<R::File, I>, Fault<'a>> {
    if name == INPUT {
        return Ok(Either::Right(input));
    }
    match fs::open(rt, name) {
        Ok(file) => Ok(Either::Left(file)),
        Err(error) => Err(Fault::of_file(&error, Fault::File(OneLine(name)))),
    }
}

/// The settings in a file.
fn read_settings<'a, R: Files + AllocGlobal>(
    rt: &R,
    config: &'a str,
) -> Result<Settings, Fault<'a>> {
    let text = match fs::read(rt, config) {
        Ok(text) => text,
        Err(error) => return Err(Fault::of_file(&error, Fault::File(OneLine(config)))),
    };
    match Settings::read(rt.alloc(), text.as_slice()) {
        Ok(settings) => Ok(settings),
        Err(fault) => Err(Fault::of_settings(fault)),
    }
}

/// The files of `count` ports, created or emptied in their order, up to the first that can't be. If two names are links
/// to one file that didn't exist, this is found here: creating the first port's file creates it, and leaves it empty.
fn create_ports<'a, R: Files + AllocGlobal>(
    rt: &R,
    prefix: &str,
    count: usize,
) -> Result<Vec<Counted<R::File>>, Fault<'a>>
    ensures { IfOk result (λ ports. vec_len ports ≡ count) }
{
    let mut ports = Vec::new(rt.alloc());
    let mut created = Vec::<FileId>::new(rt.alloc());
    for port in 0..count {
        let file = create_port(rt, prefix, port, &mut created)?;
        if ports.push(Counted::new(file)).is_err() {
            return Err(Fault::Memory);
        }
    }
    Ok(ports)
}

/// The file of a port, created or emptied, which isn't one of those created before.
fn create_port<'a, R: Files + AllocGlobal>(
    rt: &R,
    prefix: &str,
    port: usize,
    created: &mut Vec<FileId>,
) -> Result<R::File, Fault<'a>> {
    let name = port_name(rt.alloc(), prefix, port)?;
    match fs::create(rt, name.as_str()) {
        Ok(file) => {
            if note(created, file.metadata())? {
                return Err(Fault::PortFile(OneLine(name)));
            }
            Ok(file)
        }
        Err(error) => Err(Fault::of_file(&error, Fault::PortFile(OneLine(name)))),
    }
}

/// The name of a port's file.
pub(crate) fn port_name(alloc: Global, prefix: &str, port: usize) -> Result<String, AllocError>
    ensures { IfOk result (λ name. name.bytes.items ≡ prefix.now ++ (codes "." ++ (decimal port ++ codes ".pcap"))) }
{
    let mut number = Buffer::new();
    let mut name = String::from_str(alloc, prefix)?;
    name.push('.')?;
    name.push_str(number.format(port))?;
    name.push_str(".pcap")?;
    Ok(name)
}

/// The text of a report.
fn report(alloc: Global, summary: &Summary) -> Result<Vec<u8>, AllocError>
    ensures { IfOk result (λ text. text.items ≡ report_of summary.now.counts summary.now.torn) }
{
    let mut text = Vec::new(alloc);
    summary.counts.report(alloc, summary.torn, &mut text)?;
    Ok(text)
}
