//! The demand for lines.

use std::sync::atomic::{AtomicBool, Ordering};

/// The demand for lines: whether a worker waits for them.
///
/// Example: an `AtomicBool`, in which the thread that works on the round before stores `true` when
/// it is done.
pub trait Demand {
    /// Whether a worker waits for the next round, with nothing else to do.
    fn is_waiting(&self) -> bool;
}

impl Demand for AtomicBool {
    /// Whether `true` is stored.
    fn is_waiting(&self) -> bool {
        self.load(Ordering::Relaxed)
    }
}

/// No demand: no worker ever waits.
pub(crate) struct NoDemand;

impl Demand for NoDemand {
    fn is_waiting(&self) -> bool {
        false
    }
}
