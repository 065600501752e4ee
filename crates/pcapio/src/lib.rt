//! Captures in the classic pcap file format (pcap-savefile(5)), streamed: a reader of both byte orders and both
//! resolutions, and a writer, over devices whose failures are counted.
//!
//! `pcapio_laws` defines what a capture is. A reader returns its records one after another: `head`, and then `body`,
//! which reads the record's bytes into the segments of a chain, or `skip`; or `next`, which makes a vector. If the
//! record is in the reader's buffer as a whole (`is_buffered`), `lend` lends its bytes there. A writer's `put` takes
//! the bytes from a chain, and `put_frame` from a slice. Each has a buffer of 64 KiB, made in `open`; of their other
//! calls, only `next` takes memory. `copy_records` and `collect_records` show them in use.
#![tactic(auto)]

mod collect;
mod copy;
mod counted;
mod header;
mod read_buffer;
mod reader;
mod reader_state;
mod record;
mod stream;
mod text;
mod write_buffer;
mod writer;

pub use collect::collect_records;
pub use copy::{copy_capture, copy_records};
pub use counted::Counted;
pub use header::{FILE_HEADER, field, header_in};
pub use pcapio_laws::{ByteOrder, CapFault, MAX_CAPTURED, Resolution};
pub use reader::Reader;
pub use record::{HEAD, Head, Record, head_in};
pub use writer::Writer;
