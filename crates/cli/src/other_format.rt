//! Formats of captures that aren't read, but that other programs convert. A file's first bytes say which it has.

ghost use Rattle.std.specs.Prelude.{◌≡◌, ◌≤◌, ◌++◌, [], IfSome, None, length, take};
ghost use Rattle.cli.specs.Formats.{IsIn};

use arrayvec::ArrayVec;
use thiserror::Error;

/// The first bytes of a modified pcap file, big-endian.
const MODIFIED_BIG: [u8; 4] = [0xa1, 0xb2, 0xcd, 0x34];

/// The first bytes of a modified pcap file, little-endian.
const MODIFIED_LITTLE: [u8; 4] = [0x34, 0xcd, 0xb2, 0xa1];

/// Those of a pcapng file, the same in both byte orders.
const PCAPNG: [u8; 4] = [0x0a, 0x0d, 0x0d, 0x0a];

/// Those of a gzip file.
const GZIP: [u8; 2] = [0x1f, 0x8b];

/// A format of captures other than classic pcap. Its text is a hint: what the file is, and what converts it.
#[derive(Clone, Copy, Debug, PartialEq, Eq, Error)]
pub enum OtherFormat {
    /// pcap with longer record headers, by the magic 0xa1b2cd34.
    #[error("this is a modified pcap file, and editcap -F pcap IN OUT converts it")]
    Modified,
    /// Wireshark's default format.
    #[error("this is a pcapng file, and editcap -F pcap IN OUT converts it")]
    Pcapng,
    /// Compressed, whatever is in it.
    #[error("this is a gzip file: zcat FILE | pktkit run --in - ..")]
    Gzip,
}

impl OtherFormat {
    /// The format of a file with these first bytes; four are enough. `None` if it is none of these.
    pub fn of(first: &[u8]) -> Option<OtherFormat>
        ensures found { IfSome result (λ format. IsIn format first.now) }
        ensures none { result ≡ None → (format : OtherFormat) → ¬ IsIn format first.now }
    {
        if first.starts_with(&MODIFIED_BIG) {
            Some(OtherFormat::Modified)
        } else if first.starts_with(&MODIFIED_LITTLE) {
            Some(OtherFormat::Modified)
        } else if first.starts_with(&PCAPNG) {
            Some(OtherFormat::Pcapng)
        } else if first.starts_with(&GZIP) {
            Some(OtherFormat::Gzip)
        } else {
            None
        }
    }
}

/// How many bytes of a file are kept.
const KEPT: usize = 4;

/// The first bytes of a file that is read in pieces of any length.
#[derive(Drop)]
pub(crate) struct FirstBytes {
    bytes: ArrayVec<u8, KEPT>,
}

impl FirstBytes {
    /// Nothing was read yet.
    pub(crate) fn new() -> FirstBytes
        ensures { result.bytes.items ≡ [] }
    {
        FirstBytes {
            bytes: ArrayVec::new(),
        }
    }

    /// These bytes come next.
    pub(crate) fn pass(&mut self, bytes: &[u8])
        ensures { self.new.bytes.items ≡ take 4 (self.old.bytes.items ++ bytes.now) }
    {
        let count = self.bytes.remaining_capacity().min(bytes.len());
        match self.bytes.try_extend_from_slice(&bytes[..count]) {
            Ok(()) => (),
            Err(_) => unreachable!(),
        }
    }

    /// The format that they say.
    pub(crate) fn format(&self) -> Option<OtherFormat>
        ensures found { IfSome result (λ format. IsIn format self.now.bytes.items) }
        ensures none { result ≡ None → (format : OtherFormat) → ¬ IsIn format self.now.bytes.items }
    {
        OtherFormat::of(self.bytes.as_slice())
    }
}
