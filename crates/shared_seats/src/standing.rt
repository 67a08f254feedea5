//! The standing of a seat.

/// A seat that may step, with what it knows, or one that was joined into another. Values of it
/// stand in contracts alone: none is made.
pub enum Standing<V> {
    Live(V),
    Spent,
}
