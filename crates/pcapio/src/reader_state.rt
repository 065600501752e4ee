//! How far a reader has got.
use crate::record::Head;
use pcapio_laws::CapFault;

/// How far a reader has got.
#[derive(Clone, Copy, Debug)]
pub(crate) enum ReaderState {
    /// Before a record.
    Between,
    /// The head of the next record was returned.
    Pending(Head),
    /// At the end of the file, which may have ended inside a record.
    Ended(bool),
    /// At a fault.
    Faulted(CapFault),
}
