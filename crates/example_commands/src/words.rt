//! What lists of words mean to the syntax of two commands, as rows.

ghost use Rattle.std.specs.Prelude.{◌≡◌, true};
ghost use Rattle.command_words.specs.Syntax.{is_sound};

use command_words::{Arguments, Syntax, read};
use std::alloc::{AllocError, Global};
use std::test::Fail;

/// Words of `draw` and of `list`, a row a list: the words with a blank between two, ` => ` and what
/// they give to the command, or `none`.
const ROWS: &str = "\
draw a b => [false, false] [None, None] [\"a\", \"b\"]
draw --json a --workers 4 b --proof => [true, true] [Some(\"4\"), None] [\"a\", \"b\"]
draw a --engine fast --workers=4 --proof b => [false, true] [Some(\"4\"), Some(\"fast\")] [\"a\", \"b\"]
draw a b --engine=fast => [false, false] [None, Some(\"fast\")] [\"a\", \"b\"]
draw json workers => [false, false] [None, None] [\"json\", \"workers\"]
draw --workers json a b => [false, false] [Some(\"json\"), None] [\"a\", \"b\"]
draw --workers= a b => [false, false] [Some(\"\"), None] [\"a\", \"b\"]
draw --workers=-1 a b => [false, false] [Some(\"-1\"), None] [\"a\", \"b\"]
draw --workers=--json a b => [false, false] [Some(\"--json\"), None] [\"a\", \"b\"]
draw --workers=a=b a b => [false, false] [Some(\"a=b\"), None] [\"a\", \"b\"]
draw =a b-- => [false, false] [None, None] [\"=a\", \"b--\"]
draw  b => [false, false] [None, None] [\"\", \"b\"]
draw --workers  a b => [false, false] [Some(\"\"), None] [\"a\", \"b\"]
draw a b --workers => none
draw --workers --json a b => none
draw --workers -1 a b => none
draw --workers -- a b => none
draw --workers - a b => none
draw --json --json a b => none
draw --workers 4 --workers 4 a b => none
draw --workers=4 a b --workers 5 => none
draw --json=true a b => none
draw --json= a b => none
draw --js a b => none
draw --jsons a b => none
draw --JSON a b => none
draw ---json a b => none
draw --=4 a b => none
draw --PLAN a b => none
draw --PLAN=a b => none
draw a => none
draw a b c => none
draw --workers 4 => none
draw --help => none
draw a b --help => none
draw a b --version => none
draw --help=a a b => none
draw a -1 => none
draw a - => none
draw -h a b => none
draw -V a b => none
draw -json a b => none
draw -- a b => none
draw a b -- => none
draw --workers -- 4 a b => none
list => [false, false] [None, None] []
list --workers 64 --json => [true, false] [Some(\"64\"), None] []
list --proof => none
list --engine fast => none
list a => none
list  => none";

/// The words that a command takes.
fn syntax_of(command: &str) -> Syntax<'static>
    ensures { is_sound result ≡ true }
{
    match command {
        "draw" => Syntax {
            flags: &["json", "proof"],
            options: &["workers", "engine"],
            operands: &["PLAN", "EVENTS"],
        },
        _ => Syntax {
            flags: &["json"],
            options: &["workers"],
            operands: &[],
        },
    }
}

/// Two flags, two options and the operands.
fn shown(alloc: Global, arguments: &Arguments<'_>) -> Result<String, AllocError> {
    let flags = [arguments.flag(0), arguments.flag(1)];
    let options = [arguments.option(0), arguments.option(1)];
    let operands = arguments.operands();
    format!(in alloc; "{flags:?} {options:?} {operands:?}")
}

/// What the words after a command give to it.
fn given(alloc: Global, command: &str, words: &[String]) -> Result<String, AllocError> {
    match read(alloc, &syntax_of(command), words)? {
        None => "none".to_string(alloc),
        Some(arguments) => shown(alloc, &arguments),
    }
}

/// The words of a row.
fn words_of(alloc: Global, row: &str) -> Result<Vec<String>, AllocError> {
    let mut words = Vec::new(alloc);
    for word in row.split(' ') {
        words.push(String::from_str(alloc, word)?)?;
    }
    Ok(words)
}

/// What a row gives.
fn answer(alloc: Global, row: &str) -> Result<String, AllocError> {
    let words = words_of(alloc, row)?;
    match words.split_first() {
        None => "no command".to_string(alloc),
        Some((command, others)) => given(alloc, command, others),
    }
}

#[test]
fn words(rt: HostRuntime) -> Result<(), Fail> {
    for row in ROWS.split('\n') {
        let (words, wanted) = row.split_once(" => ").ok_or("a row")?;
        let result_text = answer(rt.alloc(), words)?;
        assert_eq!(rt; result_text.as_str(), wanted, "{words}");
    }
    Ok(())
}
