//! Runs of the program that play a day of a plan, and that forge a network.

use crate::runs::{Calls, try_row};
use std::alloc::{AllocError, Global};
use std::process::Abort;
use std::test::Fail;
use std::thread::Threads;

/// Rows: the words, the input, what is put, and the exit status; `|` stands for a line end. In
/// order: two waits of which one comes by the cross-case rule; a day of three drives; a wait, in
/// situations by number; a point that comes together with the end of a link; three points in a row;
/// no point at all; a plan that cannot be kept; plans with a fault; forged networks; and words.
const RUNS: &str =
    r#"stnu play shortest => stnu 1|point A1|point C1|point A2|point C2|bound b1 C1 C2 2|link A1 1 3 C1|link A2 2 6 C2|end| => controllable|time A1 2|time C1 3|time A2 0|time C2 2| => 0
stnu play longest => stnu 1|point A1|point C1|point A2|point C2|bound b1 C1 C2 2|link A1 1 3 C1|link A2 2 6 C2|end| => controllable|time A1 3|time C1 6|time A2 0|time C2 6| => 0
stnu play shortest => stnu 1|point start|point leave1|point arrive1|point leave2|point arrive2|point meet|point leave3|point arrive3|bound a1 leave1 start 0|bound a2 start leave1 60|bound b1 leave2 arrive1 -10|bound b2 arrive1 leave2 30|bound c1 meet start -120|bound c2 start meet 150|bound c3 meet arrive2 0|bound d1 leave3 arrive2 -15|bound d2 arrive2 leave3 120|bound d3 leave3 meet -30|bound z start arrive3 240|link leave1 20 40 arrive1|link leave2 30 50 arrive2|link leave3 25 45 arrive3|end| => controllable|time start 0|time leave1 0|time arrive1 20|time leave2 30|time arrive2 60|time meet 120|time leave3 150|time arrive3 175| => 0
stnu play longest --workers 2 => stnu 1|point start|point leave1|point arrive1|point leave2|point arrive2|point meet|point leave3|point arrive3|bound a1 leave1 start 0|bound a2 start leave1 60|bound b1 leave2 arrive1 -10|bound b2 arrive1 leave2 30|bound c1 meet start -120|bound c2 start meet 150|bound c3 meet arrive2 0|bound d1 leave3 arrive2 -15|bound d2 arrive2 leave3 120|bound d3 leave3 meet -30|bound z start arrive3 240|link leave1 20 40 arrive1|link leave2 30 50 arrive2|link leave3 25 45 arrive3|end| => controllable|time start 0|time leave1 0|time arrive1 40|time leave2 50|time arrive2 100|time meet 120|time leave3 150|time arrive3 195| => 0
stnu play 3 => stnu 1|point A|point C|point D|bound b1 D C 4|link A 3 8 C|end| => controllable|time A 0|time C 6|time D 4| => 0
stnu play 0 => stnu 1|point A|point C|point D|bound b1 D C 4|link A 3 8 C|end| => controllable|time A 0|time C 3|time D 3| => 0
stnu play --workers=7 18446744073709551615 => stnu 1|point A|point C|point D|bound b1 D C 4|link A 3 8 C|end| => controllable|time A 0|time C 6|time D 4| => 0
stnu play --json 3 => {"stnu":1,"points":["A","C","D"],"bounds":[{"name":"b1","from":"D","to":"C","most":4}],"links":[{"from":"A","low":3,"high":8,"to":"C"}]}|end| => controllable|time A 0|time C 6|time D 4| => 0
stnu play 5 => stnu 1|point A|point C|point D|bound e1 C D 0|bound e2 D C 0|link A 3 8 C|end| => controllable|time A 0|time C 8|time D 8| => 0
stnu play longest => stnu 1|point A|point B|point C|bound b1 B A -2|bound b2 C B -3|bound b3 C A -4|end| => controllable|time A 0|time B 2|time C 5| => 0
stnu play longest => stnu 1|end| => controllable| => 0
stnu play longest => stnu 1|point A|point B|bound b1 A B 3|bound b2 B A -5|end| => not controllable|certificate 1|refutation|bound b1 A B 3|bound b2 B A -5|no 1 2 A A -2|walk 3|end| => 1
stnu play longest => point A|end| => error format 1 no-header| => 3
stnu play longest => stnu 1|point A|point A|end| => error plan 3 duplicate-name| => 3
stnu forge 9 1 =>  => points 3|links 1|bounds 3|controllable|entries 9|last 28|accepted| => 0
stnu forge 7 1 =>  => points 3|links 1|bounds 3|not controllable|lines 4|accepted| => 1
stnu forge --workers 2 9 1 => stnu 1| => points 3|links 1|bounds 3|controllable|entries 9|last 28|accepted| => 0
stnu play 03 => stnu 1|point A|point B|bound b1 A B 3|bound b2 B A -5|end| => error words| => 2
stnu play -1 => stnu 1|point A|point B|bound b1 A B 3|bound b2 B A -5|end| => error words| => 2
stnu play -- => stnu 1|point A|point B|bound b1 A B 3|bound b2 B A -5|end| => error words| => 2
stnu play => stnu 1|point A|point B|bound b1 A B 3|bound b2 B A -5|end| => error words| => 2
stnu play shortest longest => stnu 1|point A|point B|bound b1 A B 3|bound b2 B A -5|end| => error words| => 2
stnu play longest longest => stnu 1|point A|point B|bound b1 A B 3|bound b2 B A -5|end| => error words| => 2
stnu play long => stnu 1|point A|point B|bound b1 A B 3|bound b2 B A -5|end| => error words| => 2
stnu play 18446744073709551616 => stnu 1|point A|point B|bound b1 A B 3|bound b2 B A -5|end| => error words| => 2
stnu play longest --proof => stnu 1|point A|point B|bound b1 A B 3|bound b2 B A -5|end| => error words| => 2
stnu play --which longest => stnu 1|point A|point B|bound b1 A B 3|bound b2 B A -5|end| => error words| => 2
stnu forge 9 334 => stnu 1|point A|point B|bound b1 A B 3|bound b2 B A -5|end| => error words| => 2
stnu forge 9 0 => stnu 1|point A|point B|bound b1 A B 3|bound b2 B A -5|end| => error words| => 2
stnu forge 2147483648 1 => stnu 1|point A|point B|bound b1 A B 3|bound b2 B A -5|end| => error words| => 2
stnu forge 9 => stnu 1|point A|point B|bound b1 A B 3|bound b2 B A -5|end| => error words| => 2
stnu forge 9 01 => stnu 1|point A|point B|bound b1 A B 3|bound b2 B A -5|end| => error words| => 2
stnu forge 9 1 1 => stnu 1|point A|point B|bound b1 A B 3|bound b2 B A -5|end| => error words| => 2
stnu forge 9 1 --json => stnu 1|point A|point B|bound b1 A B 3|bound b2 B A -5|end| => error words| => 2
stnu forge -9 1 => stnu 1|point A|point B|bound b1 A B 3|bound b2 B A -5|end| => error words| => 2
stnu check longest => stnu 1|point A|point B|bound b1 A B 3|bound b2 B A -5|end| => error words| => 2
stnu check 3 => stnu 1|point A|point B|bound b1 A B 3|bound b2 B A -5|end| => error words| => 2
stnu judge longest => stnu 1|point A|point B|bound b1 A B 3|bound b2 B A -5|end| => error words| => 2
stnu show --workers 2 => stnu 1|point A|point B|bound b1 A B 3|bound b2 B A -5|end| => error words| => 2
stnu run 9 1 => stnu 1|point A|point B|bound b1 A B 3|bound b2 B A -5|end| => error words| => 2
stnu session longest => stnu 1|point A|point B|bound b1 A B 3|bound b2 B A -5|end| => error words| => 2
stnu chek => stnu 1|point A|point B|bound b1 A B 3|bound b2 B A -5|end| => error words| => 2
stnu check --workers 0 => stnu 1|point A|point B|bound b1 A B 3|bound b2 B A -5|end| => error words| => 2
stnu check --workers 2 --workers 2 => stnu 1|point A|point B|bound b1 A B 3|bound b2 B A -5|end| => error words| => 2"#;

/// The same, of a forged network of 60 tasks, with numbers of workers.
const WITH_WORKERS: &str =
    "stnu forge 7 60 =>  => points 180|links 60|bounds 239|not controllable|lines 299|accepted| => 1
stnu forge 7 60 --workers 1 =>  => points 180|links 60|bounds 239|not controllable|lines 299|accepted| => 1
stnu forge 7 60 --workers=2 =>  => points 180|links 60|bounds 239|not controllable|lines 299|accepted| => 1
stnu forge 7 60 --workers 7 =>  => points 180|links 60|bounds 239|not controllable|lines 299|accepted| => 1";

fn try_rows<R: Abort + Threads + Sync>(
    rt: &R,
    alloc: Global,
    rows: &str,
) -> Result<(), AllocError> {
    for text in rows.split('\n') {
        let calls = Calls {
            cut: 0,
            failing_take: 0,
            failing_put: 0,
        };
        try_row(rt, alloc, text, Some(calls))?;
    }
    Ok(())
}

#[test]
fn days_are_played_and_networks_forged(rt: HostRuntime) -> Result<(), Fail> {
    try_rows(&rt, rt.alloc(), RUNS)?;
    Ok(())
}

#[test]
fn workers_change_no_byte_of_a_forged_network(rt: HostRuntime) -> Result<(), Fail> {
    try_rows(&rt, rt.alloc(), WITH_WORKERS)?;
    Ok(())
}
