//! What a capture in the classic pcap file format is (pcap-savefile(5); draft-ietf-opsawg-pcap), and what holds for
//! captures, whoever reads or writes them.
//!
//! Nothing runs here but the names of errors. `specs/Capture.antt` defines which bytes are which capture, or why they
//! are refused; `specs/Text.antt` defines how records are written; the functions of `laws` state that each list of
//! bytes is in exactly one case, and that what is written is read back.
#![tactic(auto)]

mod fault;
mod format;
mod laws;

pub use fault::CapFault;
pub use format::{ByteOrder, MAX_CAPTURED, Resolution};
pub use laws::{one_case, one_reading, worked_cuts, worked_headers, worked_lengths, written_again};
