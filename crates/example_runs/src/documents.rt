//! Runs of the program on plans as JSON documents.

use crate::runs::{Calls, try_row};
use plan_port::MemoryPort;
use std::alloc::{AllocError, Global};
use std::process::Abort;
use std::test::Fail;
use std::thread::Threads;
use stnu_run::run;

/// Rows: the words, the input, what is put, and the exit status; `|` stands for a line end. In
/// order: the plan that cannot be kept of two bounds, as a document, and one that can, with its
/// proof; an empty plan shown as a document, and that shown as a text; documents and plans of
/// version 2; documents with a fault; where a document ends; parts that are refused; a certificate
/// and events after a document; and words.
const RUNS: &str =
    r#"stnu check --json => {"stnu":1,"points":["A","B"],"bounds":[{"name":"b1","from":"A","to":"B","most":3},{"name":"b2","from":"B","to":"A","most":-5}]}|end| => not controllable|certificate 1|refutation|bound b1 A B 3|bound b2 B A -5|no 1 2 A A -2|walk 3|end| => 1
stnu show --print-json => stnu 1|end| => {|  "bounds": [],|  "delay": 0,|  "links": [],|  "points": [],|  "stnu": 2|}|end| => 0
stnu show --json => {|  "bounds": [],|  "links": [],|  "points": [],|  "stnu": 1|}|end| => stnu 2|end| => 0
stnu show => # a plan|stnu 1||link B 1 5 A|point A|end| => error plan 4 unknown-name| => 3
stnu show => # a plan|stnu 1|point B|bound b B B 0|point A|link B 1 5 A|bound a A B -3|end| => stnu 2|point B|point A|bound b B B 0|bound a A B -3|link B 1 5 A|end| => 0
stnu show --json --print-json => {"links":[{"to":"A","high":5,"low":1,"from":"B"}],"points":["B","A"],|"stnu":1}|end|more => {|  "bounds": [],|  "delay": 0,|  "links": [|    {|      "from": "B",|      "high": 5,|      "low": 1,|      "to": "A"|    }|  ],|  "points": [|    "B",|    "A"|  ],|  "stnu": 2|}|end| => 0
stnu check --json --proof => {"stnu":1,"points":["A","B"],"bounds":[{"name":"b1","from":"A","to":"B","most":5},{"name":"b2","from":"B","to":"A","most":-2}]}|end| => controllable|certificate 1|table|order A|order B|edge A A 3|edge B A -2|edge A B 5|end| => 0
stnu check --json => {]|end| => error json not-json| => 3
stnu check --json => end| => error json not-json| => 3
stnu check --json => {"stnu":2,"points":[]}|end| => controllable| => 0
stnu check --json => {"stnu":3,"points":[]}|end| => error json shape top 0| => 3
stnu check --json => {"stnu":2,"points":[],"delay":1000001}|end| => error limit top 0 number| => 4
stnu check --json => {"stnu":2,"points":[],"between":[0]}|end| => error json shape between 1| => 3
stnu show --json => {"stnu":2,"points":["A"],"delay":2,"between":[{"name":"w","from":"A","low":-1,"high":0,"to":"A"}]}|end => stnu 2|delay 2|point A|bound w.max A A 0|bound w.min A A 1|end| => 0
stnu show --print-json => stnu 2|delay 5|end| => {|  "bounds": [],|  "delay": 5,|  "links": [],|  "points": [],|  "stnu": 2|}|end| => 0
stnu show => stnu 2|delay 1|point A|point B|between w A 2 5 B|end| => stnu 2|delay 1|point A|point B|bound w.max A B 5|bound w.min B A -2|end| => 0
stnu show => stnu 1|point A|point B|bound b1 A B 3|bound b2 B A -5|end| => stnu 2|point A|point B|bound b1 A B 3|bound b2 B A -5|end| => 0
stnu check => stnu 2|delay 1|point A|point C|point D|bound e1 C D 0|bound e2 D C 0|link A 3 8 C|end| => not controllable|certificate 1|refutation|bound e1 C D -1|bound e2 D C 1|link C C A -9|up 2 3 D A C -8|low C 1 A D 3|up 5 4 A A C -5|drop 6 A A -4|walk 7|end| => 1
stnu check --delay 0 => stnu 2|delay 1|point A|point C|point D|bound e1 C D 0|bound e2 D C 0|link A 3 8 C|end| => controllable| => 0
stnu check => stnu 1|delay 1|end| => error format 2 unknown-word| => 3
stnu check => stnu 2|delay 1000001|end| => error limit 2 number| => 4
stnu check => stnu 2|point A|bound w.min A A 1|between w A 0 0 A|end| => error plan 4 duplicate-name| => 3
stnu check --json => {"stnu":1,"points":["A","A b"]}|end| => error json bad-name points 2| => 3
stnu check --json => {"stnu":1,"points":["A"],"bounds":[{"name":"b","from":"A","to":"A","most":1.5}]}|end| => error json shape bounds 1| => 3
stnu check --json => {"stnu":1,"points":["A"],"bounds":[{"name":"b","from":"A","to":"A","most":2000000000}]}|end| => error limit bounds 1 number| => 4
stnu check --json => {"stnu":1,"points":["A","A"]}|end| => error plan 2 duplicate-name| => 3
stnu check --json => {"stnu":1,"points":["A","B"],"links":[{"from":"A","low":0,"high":4,"to":"B"}]}|end| => error plan 3 bad-interval| => 3
stnu show --json => {"stnu":1,||"points":["A"]|}||  end | => stnu 2|point A|end| => 0
stnu show --json => # a remark|{"stnu":1,"points":[]}|end| => error json not-json| => 3
stnu show --json => {"stnu":1,"points":[]}|end x|end| => error json not-json| => 3
stnu show --json => {"stnu":1,"points":["|end|"]}|end| => error json not-json| => 3
stnu show --json => {"stnu":1,"points":[]}| => error format 2 no-end| => 3
stnu show --json => {"stnu":1,"points":[]}|# end|| => error format 4 no-end| => 3
stnu show --json =>  => error format 1 no-end| => 3
stnu show --json => {"stnu":1,"points":[]}|end => stnu 2|end| => 0
stnu judge --json => {"stnu":1,"points":["A","B"],"bounds":[|{"name":"b1","from":"A","to":"B","most":3},{"name":"b2","from":"B","to":"A","most":-5}]}|end|certificate 1|refutation|bound b1 A B 3|bound b2 B A -5|no 1 2 A A -2|walk 3|end| => accepted not controllable| => 0
stnu judge --json => {"stnu":1,|"points":[]}|end|certificate 1|refutation|walk|end| => error format 6 word-count| => 3
stnu judge --json => {"stnu":1,"points":[]}|end| => error format 3 no-header| => 3
stnu run --json --workers 2 => {"stnu":1,"points":["A","B"],"bounds":[{"name":"b1","from":"A","to":"B","most":5},{"name":"b2","from":"B","to":"A","most":-2}]}|end|at 0|at 2|done| => controllable|due 0|act 0 A|due 2|act 2 B|due none|complete| => 0
stnu run --json => {"stnu":1,"points":["A"]}|end|at 0|at 0| => controllable|due 0|act 0 A|due none|error event 4 not-later 0| => 7
stnu check --json => stnu 1|end| => error json not-json| => 3
stnu check --json --json => stnu 1|end| => error words| => 2
stnu check --json=1 => stnu 1|end| => error words| => 2
stnu judge --print-json => stnu 1|end| => error words| => 2
stnu show --workers 2 => stnu 1|end| => error words| => 2
stnu show json => stnu 1|end| => error words| => 2"#;

#[test]
fn documents_are_read_however_the_input_is_cut(rt: HostRuntime) -> Result<(), Fail> {
    for text in RUNS.split('\n') {
        for cut in [0, 1] {
            let calls = Calls {
                cut,
                failing_take: 0,
                failing_put: 0,
            };
            try_row(&rt, rt.alloc(), text, Some(calls))?;
        }
    }
    Ok(())
}

/// A document of one line of so many bytes, and the line that ends it.
fn long_document(alloc: Global, size: usize) -> Result<Vec<u8>, AllocError> {
    let mut input = vec![in alloc; b'x'; size]?;
    input.extend_from_slice(b"\nend\n")?;
    Ok(input)
}

fn expect_answer<R: Abort + Threads + Sync>(
    rt: &R,
    alloc: Global,
    input: Vec<u8>,
    answer: &[u8],
) -> Result<(), AllocError> {
    let mut port = MemoryPort::new(
        alloc,
        input,
        Vec::new(alloc),
        Vec::new(alloc),
        Vec::new(alloc),
    );
    let words = ["stnu", "check", "--json"];
    let mut given = Vec::new(alloc);
    for word in words {
        given.push(String::from_str(alloc, word)?)?;
    }
    run(rt, alloc, &given, &mut port);
    assert_eq!(rt; port.written(), answer);
    Ok(())
}

/// A document and its `end` line have at most 67,108,864 bytes.
#[test]
fn longest_document(rt: HostRuntime) -> Result<(), Fail> {
    let input = long_document(rt.alloc(), 67_108_861)?;
    expect_answer(&rt, rt.alloc(), input, b"error json not-json\n")?;
    let input = long_document(rt.alloc(), 67_108_862)?;
    expect_answer(&rt, rt.alloc(), input, b"error limit 2 json\n")?;
    Ok(())
}
