//! Reading the words of a command by its syntax.

ghost use Rattle.std.specs.Prelude.{◌≡◌, map, string_bytes, IfOk, true};
ghost use Rattle.std.specs.List.{list_any};
ghost use Rattle.clap.specs.Words.{first_value, found_of};
ghost use Rattle.command_words.specs.Arguments.{IsMeaning};
ghost use Rattle.command_words.specs.ClapRules.{arguments_found};
ghost use Rattle.command_words.specs.ArgumentReading.{arguments_of, is_refused, is_stray};
ghost use Rattle.command_words.specs.Syntax.{is_sound};

use crate::arguments::Arguments;
use crate::clap_matches::{flags_in, operands_in, options_in};
use crate::command::command_of;
use crate::syntax::Syntax;
use clap::ArgMatches;
use clap::error::ErrorKind;
use std::alloc::{AllocError, Global};

/// What the words give to a command of this syntax, or `None` if they are not spelled as the
/// command has them: a word is none of its flags or options, a flag has a value, an option has
/// none, a name is given twice, or the operands are too few or too many. A word that begins with
/// one hyphen is refused wherever it is, and so are `--`, `--help` and `--version`. `AllocError`
/// comes only for want of memory. Clause `reading` says what `meaning` says once more, as a
/// function that goes over the words from left to right.
pub fn read<'a>(
    alloc: Global,
    syntax: &Syntax<'a>,
    words: &'a [String],
) -> Result<Option<Arguments<'a>>, AllocError>
    requires { is_sound syntax.now ≡ true }
    ensures meaning { IfOk result (IsMeaning syntax.now (map string_bytes words.now)) }
    ensures reading { IfOk result (λ arguments. arguments ≡ arguments_of syntax.now
        (map string_bytes words.now)) }
{
    if has_refused(words) {
        return Ok(None);
    }
    let command = command_of(alloc, syntax)?;
    match command.try_get_matches_from(words) {
        Ok(matches) => arguments_in(alloc, syntax, &matches),
        Err(error) => {
            if error.kind() == ErrorKind::OutOfMemory {
                return Err(AllocError);
            }
            Ok(None)
        }
    }
}

/// The arguments that the matches have, or `None` if one of the operands is not among them.
fn arguments_in<'a>(
    alloc: Global,
    syntax: &Syntax<'a>,
    matches: &ArgMatches<'a>,
) -> Result<Option<Arguments<'a>>, AllocError>
    ensures { IfOk result (λ arguments. arguments ≡ arguments_found syntax.now
        (first_value (found_of matches.now))) }
{
    let flags = flags_in(alloc, syntax.flags, matches)?;
    let options = options_in(alloc, syntax.options, matches)?;
    match operands_in(alloc, syntax.operands, matches)? {
        None => Ok(None),
        Some(operands) => Ok(Some(Arguments {
            flags,
            options,
            operands,
        })),
    }
}

/// Whether one of the words is refused wherever it is.
fn has_refused(words: &[String]) -> bool
    ensures { result ≡ list_any is_refused (map string_bytes words.now) }
{
    for word in words {
        if is_refused(word.as_str()) {
            return true;
        }
    }
    false
}

/// Whether the word is refused wherever it is: one that begins with a hyphen and names nothing, or
/// that asks for help or for a version.
fn is_refused(word: &str) -> bool
    ensures { result ≡ is_refused word.now }
{
    is_stray(word.as_bytes()) || word == "--help" || word == "--version"
}

/// Whether the word begins with a hyphen, and is not two hyphens with something after them.
fn is_stray(word: &[u8]) -> bool
    ensures { result ≡ is_stray word.now }
{
    match word {
        [b'-', b'-', _, ..] => false,
        [b'-', ..] => true,
        _ => false,
    }
}
