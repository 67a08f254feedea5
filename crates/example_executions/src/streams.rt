//! Streams, with the answer to each feed.

use crate::answer_words::{push_fed, push_finished, push_state};
use crate::live::Live;
use crate::plans::{network, points};
use net_model::Network;
use std::alloc::Global;
use std::process::Abort;
use std::test::Fail;
use std::thread::Threads;

/// Plans, each with its streams. A stream is a list of feeds, each a moment with the points that
/// complete, or `done`; and the answer: with the last acts, the next due moment, and the moments so
/// far of the points, in order of number.
const STREAMS: [(&str, &str); 7] = [
    (
        "point A|point B|bound b1 A B 5|bound b2 B A -2",
        "0 = acts: 0 A, due 2, at 0 -
2 = acts: 2 B, due -, at 0 2
done = complete:, due -, at 0 2
/
done = complete: 0 A 2 B, due -, at 0 2
2 = refused not-later 2: 0 A 2 B, due -, at 0 2
/
1 = acts: 0 A, due 2, at 0 -
done = complete: 2 B, due -, at 0 2
3 = acts:, due -, at 0 2",
    ),
    (
        "",
        "done = complete:, due -, at
0 = acts:, due -, at",
    ),
    (
        "point A|point C|point D|bound e1 C D 0|bound e2 D C 0|link A 3 8 C",
        "0 = acts: 0 A, due 8, at 0 - -
5 C = acts: 5 D, due -, at 0 5 5
done = complete:, due -, at 0 5 5",
    ),
    (
        "point A|point C|point D|bound b1 D C 4|link A 3 8 C",
        "0 = acts: 0 A, due 4, at 0 - -
3 C = acts: 3 D, due -, at 0 3 3
done = complete:, due -, at 0 3 3
/
0 = acts: 0 A, due 4, at 0 - -
4 = acts: 4 D, due -, at 0 - 4
8 C = acts:, due -, at 0 8 4
done = complete:, due -, at 0 8 4
/
0 = acts: 0 A, due 4, at 0 - -
2 C = refused too-soon C 3: 0 A, due -, at 0 - -
9 C = ended too-soon C 3: 0 A, due -, at 0 - -
done = ended too-soon C 3: 0 A, due -, at 0 - -
/
0 = acts: 0 A, due 4, at 0 - -
9 = refused overdue C 8: 0 A, due -, at 0 - -
/
0 = acts: 0 A, due 4, at 0 - -
8 = refused overdue C 8: 0 A, due -, at 0 - -
/
0 = acts: 0 A, due 4, at 0 - -
4 = acts: 4 D, due -, at 0 - 4
8 C = acts:, due -, at 0 8 4
8 = refused not-later 8:, due -, at 0 8 4
/
0 = acts: 0 A, due 4, at 0 - -
4 C C = refused twice C 4: 0 A, due -, at 0 - -
/
0 C = refused not-active C:, due -, at - - -
/
0 D = refused not-contingent D:, due -, at - - -
/
done = unfinished C:, due 0, at - - -
0 = acts: 0 A, due 4, at 0 - -
5 = acts: 4 D, due -, at 0 - 4
done = unfinished C: 4 D, due -, at 0 - 4
7 C = acts:, due -, at 0 7 4
8 C = refused twice C 7:, due -, at 0 7 4",
    ),
    (
        "point A|point C|point D|bound b1 D C 1|bound b2 C D -1|link A 5 5 C",
        "0 = acts: 0 A, due 4, at 0 - -
4 = acts: 4 D, due -, at 0 - 4
5 C = acts:, due -, at 0 5 4
done = complete:, due -, at 0 5 4",
    ),
    // Refusals first, last and beside one another: F runs from D, and D comes with C.
    (
        "point A|point C|point D|point F|point S|bound e1 C D 0|bound e2 D C 0|link A 3 8 C|link D 2 4 F",
        "4000000000001 = refused moment-limit:, due -, at - - - - -
/
4000000000001 S = refused moment-limit:, due -, at - - - - -
/
4000000000000 = refused overdue C 8:, due -, at - - - - -
/
0 = acts: 0 A 0 S, due 8, at 0 - - - 0
0 S = refused not-later 0: 0 A 0 S, due -, at 0 - - - 0
4000000000001 = ended not-later 0: 0 A 0 S, due -, at 0 - - - 0
/
0 = acts: 0 A 0 S, due 8, at 0 - - - 0
5 S C = refused not-contingent S: 0 A 0 S, due -, at 0 - - - 0
/
0 = acts: 0 A 0 S, due 8, at 0 - - - 0
5 C S = refused not-contingent S: 0 A 0 S, due -, at 0 - - - 0
/
0 = acts: 0 A 0 S, due 8, at 0 - - - 0
5 C C S = refused twice C 5: 0 A 0 S, due -, at 0 - - - 0
/
0 = acts: 0 A 0 S, due 8, at 0 - - - 0
5 S C C = refused not-contingent S: 0 A 0 S, due -, at 0 - - - 0
/
1 C = refused too-soon C 3:, due -, at - - - - -
/
0 = acts: 0 A 0 S, due 8, at 0 - - - 0
2 C F = refused too-soon C 3: 0 A 0 S, due -, at 0 - - - 0
/
0 = acts: 0 A 0 S, due 8, at 0 - - - 0
2 F C = refused not-active F: 0 A 0 S, due -, at 0 - - - 0
/
0 = acts: 0 A 0 S, due 8, at 0 - - - 0
5 C F = refused not-active F: 0 A 0 S, due -, at 0 - - - 0
/
0 = acts: 0 A 0 S, due 8, at 0 - - - 0
9 C = refused overdue C 8: 0 A 0 S, due -, at 0 - - - 0
/
0 = acts: 0 A 0 S, due 8, at 0 - - - 0
9 F = refused too-soon F 10: 0 A 0 S, due -, at 0 - - - 0
/
0 = acts: 0 A 0 S, due 8, at 0 - - - 0
20 F C = refused overdue F 12: 0 A 0 S, due -, at 0 - - - 0
/
0 = acts: 0 A 0 S, due 8, at 0 - - - 0
20 = refused overdue C 8: 0 A 0 S, due -, at 0 - - - 0
/
7 = acts: 0 A 0 S, due 8, at 0 - - - 0
8 C = acts: 8 D, due -, at 0 8 8 - 0
11 F = acts:, due -, at 0 8 8 11 0
/
5 C = acts: 0 A 0 S 5 D, due -, at 0 5 5 - 0
6 F C = refused too-soon F 7: 0 A 0 S 5 D, due -, at 0 5 5 - 0
/
5 C = acts: 0 A 0 S 5 D, due -, at 0 5 5 - 0
10 C = refused twice C 5: 0 A 0 S 5 D, due -, at 0 5 5 - 0
/
5 C = acts: 0 A 0 S 5 D, due -, at 0 5 5 - 0
9 = refused overdue F 9: 0 A 0 S 5 D, due -, at 0 5 5 - 0
/
5 C = acts: 0 A 0 S 5 D, due -, at 0 5 5 - 0
done = unfinished F: 0 A 0 S 5 D, due -, at 0 5 5 - 0
9 F = acts:, due -, at 0 5 5 9 0
done = complete:, due -, at 0 5 5 9 0
10 F = refused twice F 9:, due -, at 0 5 5 9 0
done = ended twice F 9:, due -, at 0 5 5 9 0",
    ),
    // Two that are overdue: the lower number, though the other was due earlier.
    (
        "point A|point C|point E|point B|link A 3 8 C|link B 1 2 E|bound b B A 0",
        "10 = refused overdue C 8:, due -, at - - - -
/
0 = acts: 0 A 0 B, due -, at 0 - - 0
5 = refused overdue E 2: 0 A 0 B, due -, at 0 - - 0
/
0 = acts: 0 A 0 B, due -, at 0 - - 0
8 E = refused overdue E 2: 0 A 0 B, due -, at 0 - - 0
/
0 = acts: 0 A 0 B, due -, at 0 - - 0
1 E = acts:, due -, at 0 - 1 0
8 = refused overdue C 8:, due -, at 0 - 1 0",
    ),
];

#[test]
fn streams_are_answered(rt: HostRuntime) -> Result<(), Fail> {
    for (parts, streams) in &STREAMS {
        check_streams(&rt, rt.alloc(), parts, streams)?;
    }
    Ok(())
}

fn check_streams(
    rt: &(impl Abort + Threads + Sync),
    alloc: Global,
    parts: &str,
    streams: &str,
) -> Result<(), Fail> {
    let net = network(alloc, parts)?;
    check_each(rt, alloc, &net, streams)
}

fn check_each(
    rt: &(impl Abort + Threads + Sync),
    alloc: Global,
    net: &Network,
    streams: &str,
) -> Result<(), Fail> {
    for stream in streams.split('/') {
        check_stream(rt, alloc, net, stream)?;
    }
    Ok(())
}

fn check_stream(
    rt: &(impl Abort + Threads + Sync),
    alloc: Global,
    net: &Network,
    stream: &str,
) -> Result<(), Fail> {
    let mut live = Live::start(rt, alloc, net)?;
    check_lines(rt, alloc, net, &mut live, stream.trim())
}

fn check_lines(
    rt: &impl Abort,
    alloc: Global,
    net: &Network,
    live: &mut Live,
    stream: &str,
) -> Result<(), Fail> {
    for line in stream.split('\n') {
        check_line(rt, alloc, net, live, line)?;
    }
    Ok(())
}

fn check_line(
    rt: &impl Abort,
    alloc: Global,
    net: &Network,
    live: &mut Live,
    line: &str,
) -> Result<(), Fail> {
    let (words, wanted) = line.split_once(" = ").ok_or("no row")?;
    let mut text = String::new(alloc);
    push_line(alloc, net, live, words, &mut text)?;
    check_text(rt, text.as_str(), wanted, line);
    Ok(())
}

fn check_text(rt: &impl Abort, text: &str, wanted: &str, line: &str) {
    assert_eq!(rt; text, wanted, "{line}");
}

/// Feeds or ends, and pushes the answer and what stands then.
fn push_line(
    alloc: Global,
    net: &Network,
    live: &mut Live,
    words: &str,
    text: &mut String,
) -> Result<(), Fail> {
    if words == "done" {
        push_finished(net, live.finish(), text)?;
    } else {
        feed(alloc, net, live, words, text)?;
    }
    push_state(net, live, text)
}

/// Feeds a moment and the points that complete, and pushes the answer.
fn feed(
    alloc: Global,
    net: &Network,
    live: &mut Live,
    words: &str,
    text: &mut String,
) -> Result<(), Fail> {
    let mut words = words.split_whitespace();
    match moment(words.next()) {
        Some(moment) => {
            let listed = points(alloc, net, &mut words)?;
            push_fed(net, live.feed(moment, listed.as_slice())?, text)
        }
        None => Err(Fail::from("no moment")),
    }
}

fn moment(word: Option<&str>) -> Option<u64> {
    word?.parse().ok()
}
