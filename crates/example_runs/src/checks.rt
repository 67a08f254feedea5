//! The command `check` over plans: what it prints, and its exit status.
use plan_port::MemoryPort;
use std::alloc::{AllocError, Global};
use std::process::Abort;
use std::test::Fail;
use std::thread::Threads;
use stnu_run::run;

/// Rows: the exit status, a plan, and what `check` prints of it; `|` stands for a line end. In
/// order: no point at all; two bounds that can both be kept, and two that cannot; a point that
/// comes together with the end of a link; a plan of which every single situation has a schedule,
/// though none can be found without foresight; the same if the duration is known; a wait; a wait by
/// the cross-case rule; a ring of two links; two waits that cross; a drive with images, with the
/// least number with which it can be kept and with one below; and plans that are refused.
const ROWS: &str = "0 stnu 1|end => controllable
0 stnu 1|point A|point B|bound b1 A B 5|bound b2 B A -2|end => controllable
1 stnu 1|point A|point B|bound b1 A B 3|bound b2 B A -5|end => not controllable|certificate 1|refutation|bound b1 A B 3|bound b2 B A -5|no 1 2 A A -2|walk 3|end
0 stnu 1|point A|point C|point D|bound e1 C D 0|bound e2 D C 0|link A 3 8 C|end => controllable
1 stnu 1|point A|point C|point D|bound b1 D C 1|bound b2 C D -1|link A 3 8 C|end => not controllable|certificate 1|refutation|bound b1 D C 1|bound b2 C D -1|link C C A -8|up 1 3 D A C -7|low C 2 A D 2|up 5 4 A A C -5|drop 6 A A -3|walk 7|end
0 stnu 1|point A|point C|point D|bound b1 D C 1|bound b2 C D -1|link A 5 5 C|end => controllable
0 stnu 1|point A|point C|point D|bound b1 D C 4|link A 3 8 C|end => controllable
0 stnu 1|point A1|point C1|point A2|point C2|bound b1 C1 C2 2|link A1 1 3 C1|link A2 2 6 C2|end => controllable
1 stnu 1|point A|point B|link A 1 2 B|link B 1 2 A|end => not controllable|certificate 1|refutation|link B B A -2|link A A B -2|drop 1 B A -1|drop 2 A B -1|walk 4|walk 3|end
1 stnu 1|point A1|point C1|point A2|point C2|bound p A1 C2 2|bound q A2 C1 2|link A1 1 10 C1|link A2 1 10 C2|end => not controllable|certificate 1|refutation|bound p A1 C2 2|bound q A2 C1 2|link C1 C1 A1 -10|link C2 C2 A2 -10|up 2 3 A2 A1 C1 -8|drop 5 A2 A1 -1|up 1 4 A1 A2 C2 -8|drop 7 A1 A2 -1|walk 8|walk 6|end
0 stnu 1|point leave|point arrive|point warm-up|point images|link leave 40 90 arrive|bound warm images warm-up -20|bound still-warm warm-up images 55|bound at-the-rock images arrive 0|bound before-shadow arrive images 15|end => controllable
1 stnu 1|point leave|point arrive|point warm-up|point images|link leave 40 90 arrive|bound warm images warm-up -20|bound still-warm warm-up images 54|bound at-the-rock images arrive 0|bound before-shadow arrive images 15|end => not controllable|certificate 1|refutation|bound warm images warm-up -20|bound still-warm warm-up images 54|bound at-the-rock images arrive 0|bound before-shadow arrive images 15|link arrive arrive leave -90|up 3 5 images leave arrive -90|up 2 6 warm-up leave arrive -36|drop 7 warm-up leave -36|no 4 1 arrive warm-up -5|low arrive 9 leave warm-up 35|no 10 8 leave leave -1|walk 11|end
3 stnu 1|point A|point A|end => error plan 3 duplicate-name
3 stnu 1|point A|point B|link A 0 4 B|end => error plan 4 bad-interval
3 stnu 1|point A|link A 1 2 A|end => error plan 3 link-to-itself
3 point A|end => error format 1 no-header";

/// A day of three drives.
const DAY: &str = "stnu 1
point start
point leave1
point arrive1
point leave2
point arrive2
point meet
point leave3
point arrive3
bound a1 leave1 start 0
bound a2 start leave1 60
bound b1 leave2 arrive1 -10
bound b2 arrive1 leave2 30
bound c1 meet start -120
bound c2 start meet 150
bound c3 meet arrive2 0
bound d1 leave3 arrive2 -15
bound d2 arrive2 leave3 120
bound d3 leave3 meet -30
bound z start arrive3 240
link leave1 20 40 arrive1
link leave2 30 50 arrive2
link leave3 25 45 arrive3
end";

/// The bytes of a text, with line ends, and a line end after all.
fn with_line_ends(alloc: Global, text: &str) -> Result<Vec<u8>, AllocError> {
    let mut bytes: Vec<u8> = text
        .bytes()
        .map(|byte| if byte == b'|' { b'\n' } else { byte })
        .collect(alloc)?;
    bytes.push(b'\n')?;
    Ok(bytes)
}

/// A row: the exit status, the plan, and the answer.
fn parts_of(row: &str) -> Option<(u8, &str, &str)> {
    let (status, others) = row.split_once(' ')?;
    let (plan, answer) = others.split_once(" => ")?;
    Some((status.parse().ok()?, plan, answer))
}

/// A port that gives the bytes of a text.
fn port_over(alloc: Global, text: &str) -> Result<MemoryPort, AllocError> {
    let input = with_line_ends(alloc, text)?;
    Ok(MemoryPort::new(
        alloc,
        input,
        Vec::new(alloc),
        Vec::new(alloc),
        Vec::new(alloc),
    ))
}

/// `check` answers a plan so.
fn expect_check<R: Abort + AllocGlobal + Threads + Sync>(
    rt: &R,
    words: &Vec<String>,
    plan: &str,
    answer: &str,
    status: u8,
) -> Result<(), AllocError> {
    let mut port = port_over(rt.alloc(), plan)?;
    let ended = run(rt, rt.alloc(), words, &mut port);
    let wanted = with_line_ends(rt.alloc(), answer)?;
    assert_eq!(rt; port.written(), wanted.as_slice(), "{plan}");
    assert_eq!(rt; ended.0, status, "{plan}");
    Ok(())
}

/// The words of the command, of which these stand after its name.
fn check_words(alloc: Global, options: &str) -> Result<Vec<String>, AllocError> {
    let mut words = Vec::new(alloc);
    for word in ["stnu", "check"] {
        words.push(String::from_str(alloc, word)?)?;
    }
    for word in options.split_whitespace() {
        words.push(String::from_str(alloc, word)?)?;
    }
    Ok(words)
}

fn try_row<R: Abort + AllocGlobal + Threads + Sync>(
    rt: &R,
    words: &Vec<String>,
    row: &str,
) -> Result<(), AllocError> {
    if let Some((status, plan, answer)) = parts_of(row) {
        expect_check(rt, words, plan, answer, status)?;
    } else {
        assert!(rt; false, "{row}");
    }
    Ok(())
}

fn try_rows<R: Abort + AllocGlobal + Threads + Sync>(
    rt: &R,
    words: &Vec<String>,
) -> Result<(), AllocError> {
    for row in ROWS.split('\n') {
        try_row(rt, words, row)?;
    }
    expect_check(rt, words, DAY, "controllable", 0)
}

#[test]
fn plans_are_checked(rt: HostRuntime) -> Result<(), Fail> {
    let words = check_words(rt.alloc(), "")?;
    try_rows(&rt, &words)?;
    Ok(())
}

/// Some numbers of workers and engines, in both spellings.
const OPTIONS: [&str; 13] = [
    "--workers 1",
    "--workers=1",
    "--workers 2",
    "--workers=2",
    "--workers 7",
    "--workers=7",
    "--workers 64",
    "--workers=64",
    "--engine rounds",
    "--engine=rounds --workers 2",
    "--engine cells",
    "--engine=cells --workers 2",
    "--workers=7 --engine cells",
];

/// The places of the rows that are tried with each of these: a plan without foresight, and two
/// waits that cross.
const WITH_OPTIONS: [usize; 2] = [4, 9];

fn try_with_options<R: Abort + AllocGlobal + Threads + Sync>(
    rt: &R,
    words: &Vec<String>,
) -> Result<(), AllocError> {
    for place in WITH_OPTIONS {
        let row = ROWS.split('\n').nth(place).unwrap_or("");
        try_row(rt, words, row)?;
    }
    Ok(())
}

#[test]
fn workers_and_engines_change_no_byte(rt: HostRuntime) -> Result<(), Fail> {
    for options in OPTIONS {
        let words = check_words(rt.alloc(), options)?;
        try_with_options(&rt, &words)?;
    }
    Ok(())
}
