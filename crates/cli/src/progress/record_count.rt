//! Counts the records of a capture whose bytes come by in pieces of any length, for the progress line alone: what a run
//! forwards and reports is counted by its reader.
ghost use Rattle.std.specs.Prelude.{◌≤◌, length};

use pcapio::{ByteOrder, FILE_HEADER, HEAD, head_in, header_in};

/// What comes next in a capture, after the bytes that are to be skipped.
#[derive(Clone, Copy)]
enum Awaited {
    /// The header of the file.
    File,
    /// The header of a record, whose numbers have this byte order.
    Record(ByteOrder),
    /// Nothing that is counted: the file is no capture, or a record's header isn't valid, and the run ends there.
    Nothing,
}

/// How many records have begun, and where the next header is.
#[derive(Drop)]
pub(crate) struct RecordCount {
    records: u64,
    awaited: Awaited,
    /// The bytes of the current header that have come by.
    header: [u8; FILE_HEADER],
    filled: usize,
    /// How many bytes of the current record are still to come.
    to_skip: u64,
}

impl RecordCount {
    /// Nothing has come by yet.
    pub(crate) fn new() -> RecordCount {
        RecordCount {
            records: 0,
            awaited: Awaited::File,
            header: [0; FILE_HEADER],
            filled: 0,
            to_skip: 0,
        }
    }

    /// How many records' headers have come by.
    pub(crate) fn records(&self) -> u64 {
        self.records
    }

    /// These bytes come next.
    pub(crate) fn pass(&mut self, bytes: &[u8]) {
        let mut rest = bytes;
        // each turn passes at least one byte
        for _ in 0..bytes.len() {
            if rest.is_empty() {
                return;
            }
            rest = self.skip(rest);
            rest = self.fill(rest);
        }
    }

    /// Passes what belongs to the current record, and returns the rest.
    fn skip<'b>(&mut self, bytes: &'b [u8]) -> &'b [u8] {
        let count = self.to_skip.min(bytes.len() as u64);
        self.to_skip -= count;
        &bytes[count as usize..]
    }

    /// Passes what belongs to the current header, and returns the rest; passes all if no header is to come.
    fn fill<'b>(&mut self, bytes: &'b [u8]) -> &'b [u8] {
        let length = match self.awaited {
            Awaited::File => FILE_HEADER,
            Awaited::Record(_) => HEAD,
            Awaited::Nothing => return &bytes[bytes.len()..],
        };
        let taken = self.take(bytes, length);
        if self.filled >= length {
            self.filled = 0;
            self.begin();
        }
        &bytes[taken..]
    }

    /// Takes bytes of a header of this length, up to its end, and returns how many.
    fn take(&mut self, bytes: &[u8], end: usize) -> usize
        requires { end ≤ 24 }
        ensures { result ≤ length bytes.now }
    {
        for i in 0..bytes.len() {
            if self.filled >= end {
                return i;
            }
            self.header[self.filled] = bytes[i];
            self.filled += 1;
        }
        bytes.len()
    }

    /// A header is complete: that of the file at first, then that of a record.
    fn begin(&mut self) {
        self.awaited = match self.awaited {
            Awaited::File => match header_in(&self.header) {
                Ok((order, _)) => Awaited::Record(order),
                Err(_) => Awaited::Nothing,
            },
            Awaited::Record(order) => match head_in(order, &self.header) {
                Some(head) => {
                    self.records = self.records.saturating_add(1);
                    self.to_skip = u64::from(head.captured);
                    Awaited::Record(order)
                }
                None => Awaited::Nothing,
            },
            Awaited::Nothing => Awaited::Nothing,
        };
    }
}
