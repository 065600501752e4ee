//! Why calls of a port are refused.
use fabric::{Reserved, SettleFault, StartFault};

/// Why a call of a port did nothing, or isn't finished.
#[derive(Drop, Clone, Copy)]
pub enum PortFault {
    /// There is no ring of this number.
    NoRing,
    /// The hand has an open span.
    Open,
    /// The hand has no open span of that side.
    NotOpen,
    /// No span was opened: why.
    Start(StartFault),
    /// This span is open and stays so: why it isn't settled.
    Settle(Reserved, SettleFault),
}
