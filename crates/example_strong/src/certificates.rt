//! The texts of strong certificates.

use crate::plans::with_line_ends;
use cert_format::{print_strong, read_strong};
use std::alloc::{AllocError, Global};
use std::process::Abort;
use std::test::Fail;

/// Texts, each with what is printed of it, or with its first fault; `|` stands for a line end.
const ROWS: &str = " => no-header in line 1
|# x|| => no-header in line 4
by| => no-header in line 1
|strong 2| => no-header in line 2
strong 1 1|end| => no-header in line 1
certificate 1|end| => no-header in line 1
strong 1 => no-end in line 2
strong 1|by e A B 1 => no-end in line 3
strong 1|strong 1|end| => unknown-word in line 2
strong 1|walk 1|end| => unknown-word in line 2
strong 1|by e A B 1|ring A|end| => unknown-word in line 3
strong 1|ring A|by e A B 1|end| => unknown-word in line 3
strong 1|ring A|by|end| => unknown-word in line 3
strong 1|by e A B|end| => word-count in line 2
strong 1|by e A B 1 # x|end| => word-count in line 2
strong 1|ring|end| => word-count in line 2
strong 1|end x| => word-count in line 2
strong 1|by 9e A! B x|end| => bad-name in line 2
strong 1|by e A! B 01|end| => bad-name in line 2
strong 1|by e A B! 01|end| => bad-name in line 2
strong 1|ring 9A|end| => bad-name in line 2
strong 1|by e A B 01|end| => bad-number in line 2
strong 1|by e A B -0|end| => bad-number in line 2
strong 1|by e A B 1000000000000000000|end| => number-limit in line 2
strong 1|by e A B -1000000000000000000|end| => number-limit in line 2
strong 1|end => strong 1|end|
#|strong\t1\r|| by end strong ring 999999999999999999|# x|by e A A -999999999999999999|end|foo => strong 1|by end strong ring 999999999999999999|by e A A -999999999999999999|end|
strong 1|ring by|ring ring |ring A|end| => strong 1|ring by|ring ring|ring A|end|";

/// What is printed of a text, or its fault.
fn answer(alloc: Global, text: &[u8]) -> Result<Vec<u8>, AllocError> {
    if text.len() > 1000 {
        return Ok(Vec::new(alloc));
    }
    match read_strong(alloc, text) {
        Ok(cert) => print_strong(alloc, &cert),
        Err(fault) => Vec::from_slice(alloc, fault.to_string(alloc)?.as_bytes()),
    }
}

fn try_row<R: Abort>(rt: &R, alloc: Global, row: &str) -> Result<(), AllocError> {
    if let Some((text, wanted)) = row.split_once(" => ") {
        let answer = answer(alloc, with_line_ends(alloc, text)?.as_slice())?;
        let same = answer.as_slice() == with_line_ends(alloc, wanted)?.as_slice();
        assert!(rt; same, "{row}");
    } else {
        assert!(rt; false, "{row}");
    }
    Ok(())
}

#[test]
fn strong_certificates_are_read_and_printed(rt: HostRuntime) -> Result<(), Fail> {
    for row in ROWS.split('\n') {
        try_row(&rt, rt.alloc(), row)?;
    }
    Ok(())
}
