//! The faults of cells.

/// Why there are no cells.
#[derive(Clone, Copy, Debug, PartialEq, Eq)]
pub enum CellFault {
    /// There are more than 1,000,000 keys: this is their number.
    TooMany(u32),
    /// There was no memory.
    OutOfMemory,
}
