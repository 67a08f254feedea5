//! The law about the closure as a function of the network, the contract of a function without
//! parameters.

ghost use Rattle.canonical_closure.specs.CanonicalClosure.{ControllableHaveCanonicalClosures};

/// If reaction is instantaneous, and some strategy controls the network, `canonical_closure` is its
/// closure, and the points that are placed are an order of it.
pub fn law_controllable_have_canonical_closures()
    ensures { ControllableHaveCanonicalClosures }
{}
