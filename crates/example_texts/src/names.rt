//! Names, and texts that are no names.

use crate::rows::{cells, see_text};
use net_model::{Name, NameFault};
use std::alloc::Global;
use std::process::Abort;
use std::test::Fail;

/// Names, and texts that are none.
const NAMES: &str = "\
a => a
Z => Z
turn-on_2.b => turn-on_2.b
abcdefghijklmnopqrstuvwxyz012345 => abcdefghijklmnopqrstuvwxyz012345
abcdefghijklmnopqrstuvwxyz0123456 => bad-name
 => bad-name
2b => bad-name
-a => bad-name
_a => bad-name
.a => bad-name
a b => bad-name
a[ => bad-name
a` => bad-name
a{ => bad-name
a/ => bad-name
a: => bad-name
é => bad-name
aé => bad-name";

/// A name as it is printed, or its fault.
fn shown(alloc: Global, text: &str) -> Result<String, Fail> {
    match Name::new(text.as_bytes()) {
        Ok(name) => Ok(name.to_string(alloc)?),
        Err(fault) => Ok(fault.to_string(alloc)?),
    }
}

#[test]
fn names(rt: HostRuntime) -> Result<(), Fail> {
    for row in NAMES.split('\n') {
        try_name(&rt, rt.alloc(), row)?;
    }
    Ok(())
}

fn try_name(rt: &impl Abort, alloc: Global, row: &str) -> Result<(), Fail> {
    let (text, answer) = cells(row).ok_or("a row")?;
    let name = shown(alloc, text)?;
    see_text(rt, name.as_str(), answer, text);
    Ok(())
}

/// Whether two texts are one name.
fn are_same(left: &str, right: &str) -> Result<bool, NameFault> {
    Ok(Name::new(left.as_bytes())? == Name::new(right.as_bytes())?)
}

#[test]
fn equal_names(rt: HostRuntime) {
    assert!(rt; matches!(are_same("Ab", "Ab"), Ok(true)));
    assert!(rt; matches!(are_same("Ab", "ab"), Ok(false)));
    assert!(rt; matches!(are_same("a", "aa"), Ok(false)));
}
