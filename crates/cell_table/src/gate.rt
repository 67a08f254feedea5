//! The gate before each target of a sweep.

/// What is called before a worker begins one of its own targets: a test can delay workers with it.
pub trait CellGate: Sync {
    /// Is called once in each sweep with the number of the target, unless the worker ended before.
    fn before(&self, target: u32);
}

/// The gate that does nothing.
#[derive(Clone, Copy, Debug)]
pub struct NoCellGate;

impl CellGate for NoCellGate {
    fn before(&self, _target: u32) {}
}
