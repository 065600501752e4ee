//! Watching packets while they are judged.

/// Watches the packets of a run while workers judge them.
pub trait Gate {
    /// Called by a worker before the verdict on the packet with this number.
    fn enter(&self, seq: u64);

    /// Called by the same worker after it.
    fn leave(&self, seq: u64);
}

/// The gate that lets every packet through at once.
pub struct Open;

impl Gate for Open {
    fn enter(&self, _seq: u64) {}

    fn leave(&self, _seq: u64) {}
}
