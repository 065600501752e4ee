//! Which run a packet belongs to. No value of a run is ever made: its name is for contracts alone.

use std::marker::Brand;

/// A run: its input, the room of its segments, what becomes of a frame, and the devices of its ports.
pub trait Run {
    ghost use Rattle.std.specs.Prelude.{ℕ, List, Option};
    ghost use Rattle.pcapio_laws.specs.declared.format.Resolution.{Resolution};
    ghost use Rattle.stages_laws.specs.Output.{Forwarding};
    ghost use Rattle.stages_laws.specs.Input.{Input};

    /// The records of the input and its end, if its bytes are known.
    ghost input: { Option Input };
    /// The number of bytes that a segment has room for.
    ghost room: { ℕ };
    /// What becomes of a frame.
    ghost forwarding: { Forwarding };
    /// The resolution of the input's time stamps.
    ghost resolution: { Resolution };
    /// What was written to the device of each port before the run, if that is known.
    ghost before: { List (Option (List ℕ)) };
    /// How many times the device of each port had failed before the run.
    ghost failures: { List ℕ };
    /// How many times the device of the input had failed before the run.
    ghost read_failures: { ℕ };
}

impl Run for Brand {
    ghost use Rattle.std.specs.Prelude.{None, []};
    ghost use Rattle.ipv4.specs.declared.verdicts.Verdict.TheVariants.{Drop};
    ghost use Rattle.ipv4.specs.declared.verdicts.Reason.TheVariants.{Short};
    ghost use Rattle.pcapio_laws.specs.declared.format.Resolution.TheVariants.{Micro};

    ghost input = { None };

    ghost room = { 0 };

    ghost forwarding = { λ frame wire. record { verdict = Drop Short; frame = frame } };

    ghost resolution = { Micro };

    ghost before = { [] };

    ghost failures = { [] };

    ghost read_failures = { 0 };
}
