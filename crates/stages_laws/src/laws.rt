//! Laws of a run, each the contract of a function without a body.
ghost use Rattle.std.specs.Prelude.{◌≡◌, ℕ, List, [], ◌∷◌, ◌++◌, true, false};
ghost use Rattle.counters.specs.Tally.{gathered};
ghost use Rattle.pcapio_laws.specs.Capture.{Packet};
ghost use Rattle.pcapio_laws.specs.declared.format.Resolution.TheVariants.{Nano};
ghost use Rattle.stages_laws.specs.Output.{Forwarding, fits, fates, records_at, output_of, tally_of};
ghost use Rattle.stages_laws.specs.Rows.{by_first, always, packet, packet_of_len, five, whole_output};

/// Parts add up: if the records of an input are those of two inputs, concatenated, each port receives the records of
/// the two outputs, concatenated, and the counts are the sums of the two runs' counts.
pub fn runs_add_up()
    ensures records { (forwarding : Forwarding) (room port : ℕ) (first then : List Packet)
        → records_at port (fates forwarding room (first ++ then))
        ≡ records_at port (fates forwarding room first) ++ records_at port (fates forwarding room then) }
    ensures counts { (forwarding : Forwarding) (room ports : ℕ) (first then : List Packet)
        → tally_of ports forwarding room (first ++ then)
        ≡ gathered (tally_of ports forwarding room first ∷ tally_of ports forwarding room then ∷ []) }
{}

/// Which records fit, which are written to which port and in which order, what is counted, and the bytes of one whole
/// port.
pub fn worked_outputs()
    ensures longest { fits 64 (packet_of_len 4096) ≡ true }
    ensures oversize { fits 64 (packet_of_len 4097) ≡ false }
    ensures first_port { records_at 0 (fates by_first 1 five) ≡ packet (34 ∷ 7 ∷ []) ∷ packet (34 ∷ 6 ∷ []) ∷ [] }
    ensures second_port { records_at 1 (fates by_first 1 five) ≡ packet (34 ∷ 8 ∷ []) ∷ [] }
    ensures other_port { records_at 2 (fates by_first 1 five) ≡ [] }
    ensures counts { tally_of 2 by_first 1 five
        ≡ record { oversize = 1; sent = 2 ∷ 1 ∷ []; dropped = 0 ∷ 0 ∷ 0 ∷ 0 ∷ 0 ∷ 0 ∷ 1 ∷ []; tagged = 1 } }
    ensures bytes { output_of Nano 0 (fates always 64 (packet [] ∷ [])) ≡ whole_output }
{}
