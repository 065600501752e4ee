//! The arguments of the command line, and what they request.

ghost use Rattle.std.specs.Prelude.{◌≡◌, ◌≤◌, drop, IfOk, IfSome};
ghost use Rattle.std.specs.Vec.Iter.{into_iter_items};
ghost use Rattle.cli.specs.Chosen.{given};

use crate::command_line::help;
use crate::workers::Workers;
use clap::builder::ValueParser;
use clap::error::ErrorKind;
use clap::{Arg, ArgAction, ArgMatches, Command, Error};
use std::alloc::{AllocError, Global};
use std::env::Args;

/// The name for standard input: as the capture of a run, and in a fault, if no file is named.
pub const INPUT: &str = "-";

/// The maximum number of workers of a run.
const MAX_WORKERS: usize = 16;

/// What `--workers` takes besides numbers.
const AUTO: &str = "auto";

/// The words that clap accepts for `--workers`, besides numbers.
const AUTO_ALONE: &[&str] = &[AUTO];

/// What a command line requests.
#[derive(Clone, Copy, Debug, PartialEq, Eq)]
pub enum Request<'a> {
    /// The replies to the ring commands of a file, or of standard input if no file is named.
    Ring(Option<&'a str>),
    /// The replies to the steps of a file.
    Steps(Option<&'a str>),
    /// The report of a run over a capture.
    Run(RunFiles<'a>),
}

/// The arguments of a run.
#[derive(Clone, Copy, Debug, PartialEq, Eq)]
pub struct RunFiles<'a> {
    /// The file of its settings.
    pub config: &'a str,
    /// The file of the capture, or `-`.
    pub input: &'a str,
    /// The prefix of the names of the ports' files.
    pub out: &'a str,
    /// How many workers judge packets, each in a thread of its own; with 0, one thread does everything.
    pub workers: Workers,
    /// Whether a line on standard error shows the progress of the run from its start on.
    pub progress: bool,
    pub ghost at_most: { given workers ≤ 16 },
}

/// The arguments after the program's name.
pub fn skip_program_name(alloc: Global, words: Args) -> Result<Vec<String>, AllocError>
    ensures { IfOk result (λ behind. behind.items ≡ drop 1 (into_iter_items words)) }
{
    words.skip(1).collect(alloc)
}

/// Reads the arguments after the program's name. Without any, the request is for standard input.
pub fn read_words<'a>(alloc: Global, words: &'a [String]) -> Result<Request<'a>, Error> {
    if words.is_empty() {
        return Ok(Request::Ring(None));
    }
    let numbers = ValueParser::unsigned(0, MAX_WORKERS as u64);
    match pktkit(alloc, numbers)?.try_get_matches_from(words) {
        Ok(matches) => read_matches(alloc, &matches),
        Err(refusal) if refusal.kind() == ErrorKind::ValueValidation => {
            read_automatic(alloc, words, refusal)
        }
        Err(refusal) => Err(refusal),
    }
}

/// Reads arguments once more that were refused since the number of workers isn't one: it may be the word `auto`. If it
/// is another word, `refusal` is returned, which has the right text.
fn read_automatic<'a>(
    alloc: Global,
    words: &'a [String],
    refusal: Error,
) -> Result<Request<'a>, Error> {
    match pktkit(alloc, ValueParser::Names(AUTO_ALONE))?.try_get_matches_from(words) {
        Ok(matches) => read_matches(alloc, &matches),
        Err(other) if other.kind() == ErrorKind::InvalidValue => Err(refusal),
        Err(other) => Err(other),
    }
}

/// What arguments request that clap accepted.
fn read_matches<'a>(alloc: Global, matches: &ArgMatches<'a>) -> Result<Request<'a>, Error> {
    match matches.subcommand() {
        Some(("steps", steps)) => Ok(Request::Steps(steps.get_str("FILE"))),
        Some(("run", run)) => match run_files(run) {
            Some(files) => Ok(Request::Run(files)),
            None => Err(wrong_arguments(alloc)?),
        },
        Some(("ring", ring)) => Ok(Request::Ring(ring.get_str("FILE"))),
        _ => Err(missing_subcommand(alloc)?),
    }
}

/// The arguments of a run. `None` if one is missing, or if there are too many workers: clap has refused both by then.
fn run_files<'a>(run: &ArgMatches<'a>) -> Option<RunFiles<'a>> {
    Some(RunFiles {
        config: run.get_str("config")?,
        input: run.get_str("in")?,
        out: run.get_str("out")?,
        workers: workers(run)?,
        progress: run.get_flag("progress"),
    })
}

/// How many workers the arguments of a run request. `None` if it isn't said, or if there are too many.
fn workers(run: &ArgMatches<'_>) -> Option<Workers>
    ensures { IfSome result (λ workers. given workers ≤ 16) }
{
    if run.get_str("workers")? == AUTO {
        return Some(Workers::Auto);
    }
    let count = run.get_one::<usize>("workers")?;
    if count > MAX_WORKERS {
        return None;
    }
    Some(Workers::Count(count))
}

/// The error for a run without one of its files, or with too many workers.
fn wrong_arguments(alloc: Global) -> Result<Error, Error> {
    let numbers = ValueParser::unsigned(0, MAX_WORKERS as u64);
    let mut run = run_command(alloc, numbers)?.bin_name("pktkit run")?;
    Ok(run.error(
        ErrorKind::MissingRequiredArgument,
        "a run needs settings, a capture, a prefix and at most 16 workers",
    )?)
}

/// The error for arguments without a subcommand.
fn missing_subcommand(alloc: Global) -> Result<Error, Error> {
    let numbers = ValueParser::unsigned(0, MAX_WORKERS as u64);
    Ok(pktkit(alloc, numbers)?.error(ErrorKind::MissingSubcommand, "a subcommand is required")?)
}

/// The command line of `pktkit`, with what `--workers` accepts.
fn pktkit<'a>(alloc: Global, workers: ValueParser<'a>) -> Result<Command<'a>, Error> {
    let ring = file_subcommand(alloc, "ring", "Ring commands, one per line")?
        .about("Prints the replies to a file of ring commands")
        .after_help(help::RING);
    let steps = file_subcommand(alloc, "steps", "A plan, then atomic steps, one per line")?
        .about("Prints the replies to a file of atomic steps on shared rings")
        .after_help(help::STEPS);
    Ok(
        Command::new(alloc, "pktkit")
            .bin_name("pktkit")?
            .version(help::VERSION)
            .about("Rings, packet buffers and routes, proved")
            .after_help(help::PROGRAM)
            .no_binary_name(true)
            .subcommand_required(true)
            .subcommand(ring)?
            .subcommand(steps)?
            .subcommand(run_command(alloc, workers)?)?,
    )
}

/// The subcommand that forwards a capture, with what `--workers` accepts.
fn run_command<'a>(alloc: Global, workers: ValueParser<'a>) -> Result<Command<'a>, Error> {
    let workers = Arg::new(alloc, "workers")
        .long("workers")
        .value_name("N")
        .action(ArgAction::Set)
        .value_parser(workers)
        .hide_possible_values(true)
        .default_value("1")
        .help("Worker threads, 0 to 16, or auto; with 0 one thread does all");
    let progress = Arg::new(alloc, "progress")
        .long("progress")
        .action(ArgAction::SetTrue)
        .help("Shows the progress in a line on standard error, erased at the end");
    Ok(
        Command::new(alloc, "run")
            .about("Forwards a capture by routes, and prints a report")
            .after_help(help::RUN)
            .arg(path(
                alloc,
                "config",
                "FILE",
                "The settings, a TOML document; required",
            ))?
            .arg(path(
                alloc,
                "in",
                "FILE",
                "The capture, a classic pcap file, or - for standard input; required",
            ))?
            .arg(path(
                alloc,
                "out",
                "PREFIX",
                "Port 0 is written to PREFIX.0.pcap, and so on; required",
            ))?
            .arg(workers)?
            .arg(progress)?,
    )
}

/// An option whose value is a file's name, or a prefix of files' names.
fn path<'a>(alloc: Global, name: &'a str, value: &'a str, help: &'a str) -> Arg<'a> {
    Arg::new(alloc, name)
        .long(name)
        .value_name(value)
        .required(true)
        .action(ArgAction::Set)
        .help(help)
}

/// A subcommand with a file as its argument.
fn file_subcommand<'a>(alloc: Global, name: &'a str, help: &'a str) -> Result<Command<'a>, Error> {
    let file = Arg::new(alloc, "FILE")
        .required(true)
        .action(ArgAction::Set)
        .help(help);
    Ok(Command::new(alloc, name).arg(file)?)
}
