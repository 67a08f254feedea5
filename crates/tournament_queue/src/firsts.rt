//! What comes first below each place of the tree.

ghost use Rattle.std.specs.Prelude.{◌≡◌, ◌⊎◌, ℕ, ◌<◌, ◌≤◌, ◌*◌, ◌%◌, length};
ghost use Rattle.tournament_queue.specs.Tournament.{at, AreFirst, AreFirstBut, IsFirstOf};
ghost use Rattle.tournament_queue.specs.Tournament.{IsNoLater};

use net_model::PointId;

/// What comes first of two.
fn first_of(one: Option<(u64, PointId)>, other: Option<(u64, PointId)>) -> Option<(u64, PointId)>
    ensures { IsFirstOf one other result }
{
    match (one, other) {
        (None, _) => other,
        (_, None) => one,
        (Some(first), Some(second)) => {
            if (second.0, second.1.0) < (first.0, first.1.0) {
                other
            } else {
                one
            }
        }
    }
}

/// Recomputes what comes first at each place above one; at all others it is known.
pub(crate) fn find_above(firsts: &mut [Option<(u64, PointId)>], place: usize)
    requires some { 1 ≤ place }
    requires place { place < length firsts.old }
    requires even { length firsts.old % 2 ≡ 0 }
    requires others { AreFirstBut place firsts.old }
    ensures count { length firsts.new ≡ length firsts.old }
    ensures first { AreFirst firsts.new }
    ensures leaves { (leaf : ℕ) → length firsts.old ≤ 2 * leaf
        → at firsts.new leaf ≡ at firsts.old leaf }
{
    let mut place = place;
    while 1 < place {
        place /= 2;
        firsts[place] = first_of(firsts[2 * place], firsts[2 * place + 1]);
    }
}
