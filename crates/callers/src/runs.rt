//! A caller: a run, with one clause for 0 to 16 workers.
ghost use Rattle.std.specs.Prelude.{◌≡◌, ◌≤◌, vec_len, IfOk, IfSome};
ghost use Rattle.pcapio.specs.Counted.{to_come};
ghost use Rattle.run_one.specs.Whole.{IsRun};

use pcapio::Counted;
use settings::Settings;
use stages::{Gate, RunFault, Summary, run_one, run_threads};
use std::io::{Read, Write};
use std::sync::Wait;
use std::thread::Threads;
use std::time::Clock;

/// A run by `workers` workers, or by one thread if that is 0.
pub fn forward<
    G: Gate + Sync,
    I: Read + Send + Drop,
    W: Write + Drop,
    R: AllocGlobal + Threads + Wait + Clock + Sync,
>(
    rt: &R,
    gate: &G,
    workers: usize,
    input: Counted<I>,
    ports: Vec<Counted<W>>,
    settings: &Settings,
) -> (
    Option<Counted<I>>,
    Vec<Counted<W>>,
    Result<Summary, RunFault>,
)
    requires workers { workers ≤ 16 }
    requires ports { vec_len ports ≡ vec_len settings.now.ports.sources }
    ensures run { IfOk result.2 (λ summary. IfSome (to_come I.remaining input) (λ bytes.
        IsRun W.contents settings.now bytes ports.items result.1.items summary)) }
{
    if workers == 0 {
        let (input, ports, answer) = run_one(rt.alloc(), input, ports, settings);
        return (Some(input), ports, answer);
    }
    run_threads(rt, rt.alloc(), gate, workers, input, ports, settings)
}
