//! JSON documents, and the networks that they declare.

ghost use Rattle.std.specs.Prelude.{◌<◌, ◌≤ℤ◌, ◌^◌, pos, length};
ghost use Rattle.net_model.specs.Limits.{most_delay};

use crate::rows::{cells, exchange, network, see_bytes};
use net_model::Network;
use plan_format::print_plan;
use plan_json::{JsonPlan, from_json, to_json};
use std::alloc::{AllocError, Global};
use std::process::Abort;
use std::test::Fail;

/// Documents, and the plan text of the network that each declares, or its fault.
const DOCUMENTS: &str = r#"
{"stnu":1,"points":[]} => stnu 2|end|
{"stnu":1,"points":["A","B"],"bounds":[{"name":"b1","from":"A","to":"B","most":3}],"links":[{"from":"A","low":1,"high":5,"to":"B"}]} => stnu 2|point A|point B|bound b1 A B 3|link A 1 5 B|end|
 {"links" : [ ] ,   "points":["\u0041","b-1.c_D"], "bounds":[{"to":"A","most":-1000000000,"from":"b-1.c_D","name":"A"}],"stnu":1}  => stnu 2|point A|point b-1.c_D|bound A b-1.c_D A -1000000000|end|
{"stnu":2,"stnu":1,"points":["B"],"points":["A"]} => stnu 2|point A|end|
{"stnu":1,"points":["A","B"],"links":[{"from":"A","low":3,"high":2,"to":"B","to":"A"}]} => link-to-itself
{"stnu":1,"points":["A","A"]} => duplicate-name
{"stnu":1,"points":["A"],"bounds":[{"name":"b","from":"B","to":"A","most":1}]} => unknown-name
 => not-json
   => not-json
{] => not-json
{} x => not-json
{"stnu":1,"points":[],} => not-json
{"stnu":1,"points":["A",]} => not-json
{"stnu":01,"points":[]} => not-json
{"stnu":1,"points":[+1]} => not-json
{"stnu":1,"points":[1e400]} => not-json
{'stnu':1,"points":[]} => not-json
{"stnu":1,"points":["\ud800"]} => not-json
[] => shape top 0
"stnu" => shape top 0
{} => shape top 0
{"stnu":1} => shape top 0
{"points":[]} => shape top 0
{"stnu":1,"points":null} => shape top 0
{"stnu":1,"points":[],"bounds":null} => shape top 0
{"stnu":1,"points":[],"bounds":{}} => shape top 0
{"stnu":1,"points":["A b"],"links":0} => shape top 0
{"stnu":1,"points":[],"x":0} => shape top 0
{"stnu":1,"points":[],"":0} => shape top 0
{"stnu":1,"points":[],"Bounds":[]} => shape top 0
{"stnu":1,"points":[],"stnu":3} => shape top 0
{"stnu":3,"points":[]} => shape top 0
{"stnu":0,"points":[]} => shape top 0
{"stnu":-1,"points":[]} => shape top 0
{"stnu":"1","points":[]} => shape top 0
{"stnu":1.0,"points":[]} => shape top 0
{"stnu":1e0,"points":[]} => shape top 0
{"stnu":1,"points":["A",1]} => shape points 2
{"stnu":1,"points":[["A"],"A b"]} => shape points 1
{"stnu":1,"points":["A","A b"]} => bad-name points 2
{"stnu":1,"points":["A",""]} => bad-name points 2
{"stnu":1,"points":["A b",1]} => bad-name points 1
{"stnu":1,"points":["9"],"bounds":[0]} => bad-name points 1
{"stnu":1,"points":["aaaaaaaaaaaaaaaaaaaaaaaaaaaaaaaaa"]} => bad-name points 1
{"stnu":1,"points":["\u00e9"]} => bad-name points 1
{"stnu":1,"points":["A"],"bounds":[{"name":"b","from":"A","to":"A","most":1.5}]} => shape bounds 1
{"stnu":1,"points":["A"],"bounds":[{"name":"b","from":"A","to":"A"}]} => shape bounds 1
{"stnu":1,"points":["A"],"bounds":[{"name":"b","from":"A","to":"A","most":1,"x":1}]} => shape bounds 1
{"stnu":1,"points":["A"],"bounds":[{"name":"b","from":"A","to":1,"most":1}]} => shape bounds 1
{"stnu":1,"points":["A"],"bounds":[{"name":"b","from":"A","to":"A","most":"1"}]} => shape bounds 1
{"stnu":1,"points":["A"],"bounds":[{"name":"b","from":"A","to":"A","low":1}]} => shape bounds 1
{"stnu":1,"points":["A"],"bounds":[{"name":"b!","from":"A","to":"A","most":-0}]} => shape bounds 1
{"stnu":1,"points":["A"],"bounds":[{"name":"b","from":"A","to":"A","most":5.0}]} => shape bounds 1
{"stnu":1,"points":["A"],"bounds":[{"name":"b","from":"A","to":"A","most":5e0}]} => shape bounds 1
{"stnu":1,"points":["A"],"bounds":[{"name":"b","from":"A","to":"A","most":9223372036854775808}]} => shape bounds 1
{"stnu":1,"points":["A"],"bounds":[{"name":"b","from":"A","to":"A","most":-9223372036854775809}]} => shape bounds 1
{"stnu":1,"points":["A"],"bounds":[{"name":"b","from":"A","to":"A","most":9223372036854775807}]} => limit bounds 1 number
{"stnu":1,"points":["A"],"bounds":[{"name":"b","from":"A","to":"A","most":-9223372036854775808}]} => limit bounds 1 number
{"stnu":1,"points":["A"],"bounds":[{"name":"b","from":"A","to":"A","most":1},{"name":"c","from":"A","to":"A","most":2000000000}]} => limit bounds 2 number
{"stnu":1,"points":["A"],"bounds":[{"name":"b","from":"A","to":"A","most":-1000000001}],"links":[1]} => limit bounds 1 number
{"stnu":1,"points":["A"],"bounds":[{"name":"b","from":"A","to":"A!","most":2000000000}]} => bad-name bounds 1
{"stnu":1,"points":["A"],"links":[{"from":"A","low":1,"high":2,"to":"A","name":"l"}]} => shape links 1
{"stnu":1,"points":["A"],"links":[{"from":"A","low":1,"high":2.5,"to":"A!"}]} => shape links 1
{"stnu":1,"points":["A"],"links":[{"from":"A","low":1,"high":2000000000,"to":"A!"}]} => bad-name links 1
{"stnu":1,"points":["A"],"links":[{"from":"A","low":-2000000000,"high":2,"to":"A"}]} => limit links 1 number
{"stnu":1,"points":["A"],"links":[{"from":"A","low":3,"high":2000000000,"to":"A"}]} => limit links 1 number
{"stnu":2,"points":[]} => stnu 2|end|
{"stnu":2,"points":["A","B"],"delay":1,"between":[{"name":"w","from":"A","low":2,"high":5,"to":"B"}]} => stnu 2|delay 1|point A|point B|bound w.max A B 5|bound w.min B A -2|end|
{"stnu":2,"points":["A","B"],"links":[{"from":"A","low":1,"high":2,"to":"B"}],"between":[{"to":"A","high":-5,"low":5,"from":"B","name":"aaaaaaaaaaaaaaaaaaaaaaaaaaaa"}],"bounds":[]} => stnu 2|point A|point B|bound aaaaaaaaaaaaaaaaaaaaaaaaaaaa.max B A -5|bound aaaaaaaaaaaaaaaaaaaaaaaaaaaa.min A B -5|link A 1 2 B|end|
{"stnu":2,"points":[],"delay":1000000} => stnu 2|delay 1000000|end|
{"stnu":2,"points":["A"],"bounds":[{"name":"w.min","from":"A","to":"A","most":1}],"between":[{"name":"w","from":"A","low":0,"high":0,"to":"A"}]} => duplicate-name
{"stnu":1,"points":[],"delay":0} => shape top 0
{"stnu":1,"points":[],"between":[]} => shape top 0
{"stnu":1,"points":["9"],"delay":1000001} => shape top 0
{"stnu":2,"points":[],"delay":-1} => shape top 0
{"stnu":2,"points":[],"delay":1.0} => shape top 0
{"stnu":2,"points":[],"delay":null} => shape top 0
{"stnu":2,"points":[],"delay":9223372036854775808} => shape top 0
{"stnu":2,"points":[],"delay":1000001,"x":0} => shape top 0
{"stnu":2,"points":[],"delay":1000001,"between":{}} => shape top 0
{"stnu":2,"points":["9"],"delay":1000001} => limit top 0 number
{"stnu":2,"points":[],"delay":9223372036854775807} => limit top 0 number
{"stnu":2,"points":[],"between":[0],"bounds":[0]} => shape bounds 1
{"stnu":2,"points":[],"links":[0],"between":[0]} => shape between 1
{"stnu":2,"points":["A"],"between":[{"name":"w","from":"A","low":0,"high":0}]} => shape between 1
{"stnu":2,"points":["A"],"between":[{"name":"w","from":"A","low":0,"high":0,"to":"A","most":0}]} => shape between 1
{"stnu":2,"points":["A"],"between":[{"name":"9","from":"A","low":0,"high":0.5,"to":"A"}]} => shape between 1
{"stnu":2,"points":["A"],"between":[{"name":"w","from":"A","low":0,"high":0,"to":"A"},{"name":"aaaaaaaaaaaaaaaaaaaaaaaaaaaaa","from":"A","low":0,"high":2000000000,"to":"A"}]} => bad-name between 2
{"stnu":2,"points":["A"],"between":[{"name":"w","from":"A","low":2000000000,"high":0,"to":"9"}]} => bad-name between 1
{"stnu":2,"points":["A"],"between":[{"name":"w","from":"A","low":-1000000001,"high":0,"to":"A"}]} => limit between 1 number"#;

/// The plan text of the network that a document declares, with `|` for each line end, or why there
/// is none.
fn result_text(alloc: Global, document: &[u8]) -> Result<Vec<u8>, AllocError> {
    match from_json(alloc, document) {
        Ok(plan) => built(alloc, &plan),
        Err(fault) => Ok(fault.to_string(alloc)?.into_bytes()),
    }
}

/// The plan text of the network of a delay and of parts, or why there is none.
fn built(alloc: Global, plan: &JsonPlan) -> Result<Vec<u8>, AllocError>
    requires few { length plan.now.parts < 2 ^ 32 }
    requires from_nought { pos 0 ≤ℤ plan.now.delay }
    requires short { plan.now.delay ≤ℤ pos most_delay }
{
    match Network::build(alloc, plan.parts.as_slice()) {
        Ok(net) => {
            let net = net.with_delay(plan.delay);
            Ok(in_one_line(print_plan(alloc, &net)?))
        }
        Err(fault) => Ok(fault.to_string(alloc)?.into_bytes()),
    }
}

/// A text with `|` for each line end.
fn in_one_line(mut text: Vec<u8>) -> Vec<u8> {
    exchange(&mut text, b'\n', b'|');
    text
}

fn try_document(rt: &impl Abort, alloc: Global, row: &str) -> Result<(), Fail> {
    let (document, answer) = cells(row).ok_or("a row")?;
    let said = result_text(alloc, document.as_bytes())?;
    see_bytes(rt, said.as_slice(), answer.as_bytes(), document);
    Ok(())
}

#[test]
fn documents(rt: HostRuntime) -> Result<(), Fail> {
    for row in DOCUMENTS.trim_start().split('\n') {
        try_document(&rt, rt.alloc(), row)?;
    }
    Ok(())
}

/// So many lists, one inside the other.
fn nested(alloc: Global, depth: usize) -> Result<Vec<u8>, AllocError> {
    let mut text = Vec::new(alloc);
    for _ in 0..depth {
        text.push(b'[')?;
    }
    for _ in 0..depth {
        text.push(b']')?;
    }
    Ok(text)
}

fn try_nested(rt: &impl Abort, alloc: Global, depth: usize, answer: &[u8]) -> Result<(), Fail> {
    let text = nested(alloc, depth)?;
    let said = result_text(alloc, &text)?;
    assert_eq!(rt; said.as_slice(), answer, "{depth}");
    Ok(())
}

/// What nests deeper than 127, and what is no UTF-8, has no reading.
#[test]
fn no_reading(rt: HostRuntime) -> Result<(), Fail> {
    try_nested(&rt, rt.alloc(), 127, b"shape top 0")?;
    try_nested(&rt, rt.alloc(), 128, b"not-json")?;
    let said = result_text(rt.alloc(), b"{\"stnu\":1,\"points\":[\"\xff\"]}")?;
    see_bytes(&rt, said.as_slice(), b"not-json", "no UTF-8");
    Ok(())
}

/// Plan texts, and the documents of their networks, with `|` for each line end.
const WRITTEN: &str =
    r#"stnu 1|end => {|  "bounds": [],|  "delay": 0,|  "links": [],|  "points": [],|  "stnu": 2|}
stnu 1|point B|point A|bound b A B -5|link B 1 5 A|end => {|  "bounds": [|    {|      "from": "A",|      "most": -5,|      "name": "b",|      "to": "B"|    }|  ],|  "delay": 0,|  "links": [|    {|      "from": "B",|      "high": 5,|      "low": 1,|      "to": "A"|    }|  ],|  "points": [|    "B",|    "A"|  ],|  "stnu": 2|}
stnu 2|delay 7|end => {|  "bounds": [],|  "delay": 7,|  "links": [],|  "points": [],|  "stnu": 2|}"#;

/// The document of the network of a plan text.
fn written(alloc: Global, plan: &str) -> Result<Vec<u8>, Fail> {
    let net = network(alloc, plan)?;
    Ok(to_json(alloc, &net)?)
}

fn try_written(rt: &impl Abort, alloc: Global, row: &str) -> Result<(), Fail> {
    let (plan, answer) = cells(row).ok_or("a row")?;
    let document = in_one_line(written(alloc, plan)?);
    see_bytes(rt, document.as_slice(), answer.as_bytes(), plan);
    Ok(())
}

#[test]
fn documents_of_networks(rt: HostRuntime) -> Result<(), Fail> {
    for row in WRITTEN.split('\n') {
        try_written(&rt, rt.alloc(), row)?;
    }
    Ok(())
}
