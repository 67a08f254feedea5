//! A law about the loop that is found, the contract of a function without parameters.

ghost use Rattle.earliest_times.specs.FirstLoops.{FirstLoopIsOne};

/// Of edges between so many points just one negative loop is the first.
pub fn law_first_loop_is_one()
    ensures { FirstLoopIsOne }
{}
