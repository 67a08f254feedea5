//! The first item that is refused, which is that of one thread.

ghost use Rattle.std.specs.Prelude.{◌≡◌, Bool};
ghost use Rattle.std.specs.Borrow.{Bor};
ghost use Rattle.std.specs.List.{All, position};

use rayon::prelude::*;
use std::thread::Threads;

/// The place of the first item at which the test answers `true`, whatever threads look for it.
/// Fewer than 2,048 items are looked at in one thread.
pub fn first_refused<T: Sync, F: Fn(&T) -> bool + Sync>(
    rt: &(impl Threads + Sync),
    items: &[T],
    is_refused: &F,
) -> Option<usize>
    requires { All (λ value. (x : Bor T) → x.now ≡ value → F.pre is_refused.now x) items.now }
    ensures { (test : T → Bool) → ((x : Bor T) (b : Bool) → F.post is_refused.now x b
        → b ≡ test x.now) → result ≡ position test items.now }
{
    items.par_iter().position_first(
        rt,
        |item: &T| -> bool
            requires { F.pre is_refused.now item }
            ensures { F.post is_refused.entry.now item.entry result }
        { is_refused(item) },
    )
}
