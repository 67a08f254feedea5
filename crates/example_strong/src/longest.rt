//! Plans, and whether the situation in which every link takes its longest duration excludes them.

use crate::plans::network;
use longest_case::is_excluded_at_longest;
use std::alloc::Global;
use std::process::Abort;
use std::test::Fail;

/// The lines of a plan without a delay, and whether it is excluded. The bounds `late` cannot be
/// satisfied if the link takes its shortest duration, which its longest does not show. The two last
/// have links one after another.
const ROWS: &str = "point A|point B|bound b1 A B 5|bound b2 B A -2 => no
point A|point B|bound b1 A B 3|bound b2 B A -5 => yes
point A|bound a A A -1 => yes
point A|point C|bound end A C 8|link A 3 8 C => no
point A|point C|bound end A C 7|link A 3 8 C => yes
point A|point C|point D|bound e1 C D 0|bound e2 D C 0|link A 3 8 C => no
point A|point C|bound late C A -4|link A 3 8 C => no
point A|point C|bound late C A -8|link A 3 8 C => no
point S|point A|point B|point C|point D|bound b A S 0|bound c C B 0|link A 1 5 B|link C 2 6 D|bound end S D 10 => yes
point S|point A|point B|point C|point D|bound b A S 0|bound c C B 0|link A 1 5 B|link C 2 6 D|bound end S D 11 => no
 => ";

fn try_row<R: Abort>(rt: &R, alloc: Global, row: &str) -> Result<(), Fail> {
    if let Some((lines, wanted)) = row.split_once(" => ") {
        let net = network(alloc, lines)?;
        let is_excluded = net.delay() == 0 && is_excluded_at_longest(alloc, &net)?;
        assert!(rt; is_excluded == (wanted == "yes"), "{row}");
    } else {
        assert!(rt; false, "{row}");
    }
    Ok(())
}

#[test]
fn plans_are_excluded_at_longest(rt: HostRuntime) -> Result<(), Fail> {
    for row in ROWS.split('\n') {
        try_row(&rt, rt.alloc(), row)?;
    }
    Ok(())
}
