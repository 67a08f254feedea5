//! The result of a post.

/// The result of a post of a moment for a link.
#[derive(Clone, Copy, Debug, PartialEq, Eq)]
pub enum Posted {
    /// Nothing stood for the link, and the moment stands from then on.
    First,
    /// This moment stood for the link before, and still stands.
    Before(u64),
}
