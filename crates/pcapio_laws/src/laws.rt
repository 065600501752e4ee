//! What holds for captures, whoever reads or writes them. The functions have no body to run: each carries a law.
ghost use Rattle.std.specs.Prelude.{◌≡◌, ◌<◌, ℕ, List, [], ◌∷◌, take, true, false};
ghost use Rattle.std.specs.List.{AllByRecursion};
ghost use Rattle.pcapio_laws.specs.Capture.{Packet, IsCapture, Case, IsCase, Refused, HasReading, HasOneReading};
ghost use Rattle.pcapio_laws.specs.Rows.{header_alone, big_header, torn_file, first_packet, nanosecond, empty_file};
ghost use Rattle.pcapio_laws.specs.Rows.{with_byte, record_header_of, one_byte_record, behind_header};
ghost use Rattle.pcapio_laws.specs.Rows.{microsecond, small_file};
ghost use Rattle.pcapio_laws.specs.Text.{file_text, whole_file, IsPacket};
ghost use Rattle.pcapio_laws.specs.declared.fault.CapFault.TheVariants.{NotPcap, BadVersion, BadLink, BadRecord};
ghost use Rattle.pcapio_laws.specs.declared.format.ByteOrder.{ByteOrder};
ghost use Rattle.pcapio_laws.specs.declared.format.ByteOrder.TheVariants.{Little, Big};
ghost use Rattle.pcapio_laws.specs.declared.format.Resolution.{Resolution};
ghost use Rattle.pcapio_laws.specs.declared.format.Resolution.TheVariants.{Micro, Nano};

/// What is written is a whole capture, with exactly the packets that were put.
pub fn written_again()
    ensures { (resolution : Resolution) (packets : List Packet) → AllByRecursion IsPacket packets
        → IsCapture (file_text resolution packets) (whole_file resolution packets) }
{}

/// Bytes are records in only one way: these packets, and this end.
pub fn one_reading()
    ensures exists { (order : ByteOrder) (bytes : List ℕ) → HasReading order bytes }
    ensures one { (order : ByteOrder) (bytes : List ℕ) → HasOneReading order bytes }
{}

/// Each list of bytes is in exactly one case: a capture, in only one way, or refused, for only one reason.
pub fn one_case()
    ensures exists { (bytes : List ℕ) → (case : Case) × IsCase bytes case }
    ensures one { (bytes : List ℕ) (a b : Case) → IsCase bytes a → IsCase bytes b → a ≡ b }
{}

/// Headers: each magic and two non-magics, the ignored fields, versions and link types on both sides of the right one,
/// and each error in the order of the tests.
pub fn worked_headers()
    ensures alone { IsCase header_alone (empty_file Little Micro) }
    ensures little_nano { IsCase (with_byte 0 77 (with_byte 1 60 header_alone)) (empty_file Little Nano) }
    ensures big_nano { IsCase (take 24 torn_file) (empty_file Big Nano) }
    ensures big_micro { IsCase (with_byte 2 195 (with_byte 3 212 big_header)) (empty_file Big Micro) }
    ensures ignored_high { IsCase (with_byte 22 4 (with_byte 23 5 header_alone)) (empty_file Little Micro) }
    ensures ignored { IsCase (with_byte 8 1 (with_byte 12 2 (with_byte 16 3 header_alone))) (empty_file Little Micro) }
    ensures short { IsCase (take 23 header_alone) (Refused NotPcap) }
    ensures not_pcap { IsCase (with_byte 0 213 (with_byte 4 3 header_alone)) (Refused NotPcap) }
    ensures short_first { IsCase (take 23 (with_byte 4 3 (with_byte 20 2 header_alone))) (Refused NotPcap) }
    ensures modified { IsCase (with_byte 0 52 (with_byte 1 205 header_alone)) (Refused NotPcap) }
    ensures next_format { IsCase (with_byte 0 10 (with_byte 1 13 (with_byte 2 13 (with_byte 3 10 header_alone))))
        (Refused NotPcap) }
    ensures old_major { IsCase (with_byte 4 1 header_alone) (Refused BadVersion) }
    ensures old_minor { IsCase (with_byte 6 3 header_alone) (Refused BadVersion) }
    ensures no_link { IsCase (with_byte 20 0 header_alone) (Refused BadLink) }
    ensures high_link { IsCase (with_byte 21 1 header_alone) (Refused BadLink) }
    ensures bad_major { IsCase (with_byte 4 3 (with_byte 20 2 header_alone)) (Refused BadVersion) }
    ensures bad_minor { IsCase (with_byte 6 5 header_alone) (Refused BadVersion) }
    ensures bad_link { IsCase (with_byte 20 2 header_alone) (Refused BadLink) }
{}

/// Records: the maximum captured length, one more, an incomplete header, and the greater of two lengths.
pub fn worked_lengths()
    ensures longest { IsCase (behind_header (record_header_of 0 0 4 0)) (microsecond [] true) }
    ensures too_long { IsCase (behind_header (record_header_of 1 0 4 0)) (Refused BadRecord) }
    ensures too_long_cut { IsCase (behind_header (take 15 (record_header_of 1 0 4 0))) (microsecond [] true) }
    ensures none_of_nine { IsCase (behind_header (record_header_of 0 0 0 9)) (small_file 9 []) }
    ensures one_of_none { IsCase (behind_header (one_byte_record 7)) (small_file 1 (7 ∷ [])) }
{}

/// Each kind of cut through a file with one whole record and a torn one.
pub fn worked_cuts()
    ensures short_file { (n : ℕ) → n < 24 → IsCase (take n torn_file) (Refused NotPcap) }
    ensures cut_25 { IsCase (take 25 torn_file) (nanosecond [] true) }
    ensures cut_39 { IsCase (take 39 torn_file) (nanosecond [] true) }
    ensures cut_40 { IsCase (take 40 torn_file) (nanosecond [] true) }
    ensures cut_73 { IsCase (take 73 torn_file) (nanosecond [] true) }
    ensures cut_74 { IsCase (take 74 torn_file) (nanosecond (first_packet ∷ []) false) }
    ensures cut_75 { IsCase (take 75 torn_file) (nanosecond (first_packet ∷ []) true) }
    ensures cut_99 { IsCase (take 99 torn_file) (nanosecond (first_packet ∷ []) true) }
    ensures cut_100 { IsCase (take 100 torn_file) (nanosecond (first_packet ∷ []) true) }
{}
