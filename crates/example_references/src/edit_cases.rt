//! What is kept of derivation lists, and what is new, in small edits.

use crate::edited_network::Edited;
use crate::kept_nodes::{followed, new_base_nodes};
use crate::plans::{are_nodes, network};
use crate::rounds::{base_nodes, rounds};
use closure_model::Node;
use example_plans::edit;
use net_model::Network;
use std::alloc::Global;
use std::process::Abort;
use std::test::Fail;

/// An edit of a network, and what is kept of the nodes of its rounds, and the new base nodes. No
/// new base nodes: `-`.
struct TestCase {
    before: &'static str,
    edit: &'static str,
    after: &'static str,
    kept: &'static str,
    new: &'static str,
}

const ONE_LINK: &str = "point A|point C|point D|bound b1 D C 1|bound b2 C D -1|link A 3 8 C";

const CASES: [TestCase; 4] = [
    TestCase {
        before: ONE_LINK,
        edit: "drop bound b2",
        after: "point A|point C|point D|bound b1 D C 1|link A 3 8 C",
        kept: "bound b1 D C 1|link C C A -8|up 1 2 D A C -7|drop 2 C A -3|drop 3 D A -3|low C 4 A A 0",
        new: "-",
    },
    TestCase {
        before: ONE_LINK,
        edit: "set bound b2 -1",
        after: ONE_LINK,
        kept: "bound b1 D C 1|link C C A -8|up 1 2 D A C -7|drop 2 C A -3|drop 3 D A -3|low C 4 A A 0",
        new: "bound b2 C D -1",
    },
    TestCase {
        before: ONE_LINK,
        edit: "drop link C",
        after: "point A|point C|point D|bound b1 D C 1|bound b2 C D -1",
        kept: "bound b1 D C 1|bound b2 C D -1|no 1 2 D D 0",
        new: "-",
    },
    TestCase {
        before: "point A|point C|point D|bound b1 D C 4",
        edit: "add link A 3 8 C",
        after: "point A|point C|point D|bound b1 D C 5|link A 3 8 C",
        kept: "-",
        new: "bound b1 D C 5|link C C A -8",
    },
];

#[test]
fn edits_keep_what_rests_on_nothing_taken(rt: HostRuntime) -> Result<(), Fail> {
    for case in &CASES {
        try_case(&rt, rt.alloc(), case)?;
    }
    Ok(())
}

fn try_case(rt: &impl Abort, alloc: Global, case: &TestCase) -> Result<(), Fail> {
    let before = network(alloc, case.before)?;
    let after = network(alloc, case.after)?;
    let edit = edit(case.edit).ok_or("no edit")?;
    try_edit(
        rt,
        alloc,
        &Edited {
            before: &before,
            edit: &edit,
            after: &after,
        },
        case,
    )
}

fn try_edit(rt: &impl Abort, alloc: Global, edited: &Edited, case: &TestCase) -> Result<(), Fail> {
    let mut nodes = base_nodes(alloc, edited.before)?;
    rounds(alloc, edited.before, &mut nodes)?;
    let kept = followed(alloc, edited, nodes.as_slice())?;
    assert!(rt;
        are(edited.after, kept.as_slice(), case.kept),
        "{}",
        case.edit
    );
    let new = new_base_nodes(alloc, edited)?;
    assert!(rt;
        are(edited.after, new.as_slice(), case.new),
        "{}",
        case.edit
    );
    Ok(())
}

/// Whether nodes are those of a text, which is `-` for none.
fn are(net: &Network, nodes: &[Node], text: &str) -> bool {
    if text == "-" {
        nodes.is_empty()
    } else {
        are_nodes(net, nodes, text)
    }
}
