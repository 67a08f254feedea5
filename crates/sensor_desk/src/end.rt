//! The result of comparing a desk with an executor at its end.

use net_model::LinkId;

/// The result of the end of a desk.
#[derive(Clone, Copy, Debug, PartialEq, Eq)]
pub enum Closing {
    /// What stands for each link is the moment that the executor has for its point, or there is
    /// neither.
    Agreed,
    /// It is not so; the link is the first for which it is not.
    Differs(LinkId),
}
