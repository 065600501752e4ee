//! The bytes of the pending record, lent in place if the reader has all of them in its buffer.
ghost use Rattle.std.specs.Prelude.{◌≡◌, ◌↔◌, IsTrue, IfSome};
ghost use Rattle.std.specs.Borrow.{sem};
ghost use Rattle.pcapio.specs.Lent.{IsBuffered, LendsBody, TakesInPlace, buffered_of};
ghost use Rattle.pcapio.specs.Reader.{pending_of};

use crate::reader::Reader;
use crate::reader_state::ReaderState;
use crate::record::HEAD;
use std::io::Read;

impl<R: Read> Reader<R> {
    /// Whether a head is pending and all bytes of its record are in the reader's buffer, so that `lend` can be called.
    #[inline]
    pub fn is_buffered(&self) -> bool
        ensures { IsTrue result ↔ IsBuffered self.now }
    {
        match self.state {
            ReaderState::Pending(head) => self.ahead.len() >= HEAD + head.captured as usize,
            _ => false,
        }
    }

    /// The bytes in the reader's buffer that are still to come: if a head is pending, from its record's header on.
    #[inline]
    pub fn buffered(&self) -> &[u8]
        ensures { result.now ≡ buffered_of self.now }
    {
        self.ahead.as_slice()
    }

    /// Takes the pending record, and lends its bytes where they are, in the reader's buffer: they may be changed there,
    /// and nothing that is still to come changes. Requires: `is_buffered`. The device isn't read. Takes no memory.
    #[inline]
    pub fn lend(&mut self) -> &mut [u8]
        requires { IsBuffered self.old }
        ensures* writes_back { sem 𝓛 (LendsBody R.row self.entry result) }
        ensures record { TakesInPlace R.remaining self.old result.now }
    {
        let ReaderState::Pending(head) = self.state else {
            unreachable!();
        };
        self.state = ReaderState::Between;
        self.ahead.lend(HEAD, head.captured as usize)
    }
}
