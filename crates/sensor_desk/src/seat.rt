//! A seat at a desk.

use crate::view::View;

/// A seat at a desk, by which its owner posts and reads. Contracts see its notes, and what each of
/// its own steps found. None may be split from a seat that was itself split from another.
pub type DeskSeat = shared_seats::Seat<View>;
