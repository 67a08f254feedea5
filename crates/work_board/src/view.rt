//! What is known of a board and of its seats. Values of `View` stand in contracts alone: none is
//! made.

/// How many targets a board has, and how many seats there can be at it.
#[derive(Clone, Copy, Debug)]
pub struct Size {
    pub targets: u32,
    pub seats: u32,
}

/// A number that was drawn, and the number of the seat that drew it.
#[derive(Clone, Copy, Debug)]
pub struct Draw {
    pub number: u32,
    pub drawer: u32,
}

/// What a seat knows.
pub struct View {
    /// How many targets the board has.
    pub targets: u32,
    /// The number of the seat among those of its board; that of the first is 0.
    pub drawer: u32,
    /// What the seat holds: what it drew, and what the seats held that were joined into it. A
    /// clause reads an array as a list, of any length.
    pub held: [Draw; 0],
    /// How often the seat, or a seat that was joined into it, drew when there was nothing left.
    pub nones: u32,
    /// How many seats were split from it and are not joined yet.
    pub out: u32,
    /// How many seats were joined into it.
    pub joined: u32,
    /// How many seats may still be split from it.
    pub to_split: u32,
}
