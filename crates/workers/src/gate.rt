//! Defines gates, which hear of each turn that is leased.

/// Hears of each turn that is leased, outside the lock. It hears of none that runs in place.
pub trait Gate {
    /// Hears that the turn with this number went out, and is about to be run.
    fn before(&self, lease: u64);

    /// Hears that the turn with this number was run, and came back or was abandoned.
    fn after(&self, lease: u64);
}

/// Is a gate that does nothing.
pub struct NoGate;

impl Gate for NoGate {
    fn before(&self, _lease: u64) {}

    fn after(&self, _lease: u64) {}
}
