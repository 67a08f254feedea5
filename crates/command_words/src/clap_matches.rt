//! What the matches of `clap` have for the names of a command.

ghost use Rattle.std.specs.Prelude.{◌≡◌, map, IfOk, option_map};
ghost use Rattle.clap.specs.Words.{first_value, found_of};
ghost use Rattle.command_words.specs.ClapRules.{is_true};
ghost use Rattle.command_words.specs.ArgumentReading.{all_texts};

use clap::ArgMatches;
use std::alloc::{AllocError, Global};

/// Which of the flags are given.
pub(crate) fn flags_in(
    alloc: Global,
    names: &[&str],
    matches: &ArgMatches<'_>,
) -> Result<Vec<bool>, AllocError>
    ensures { IfOk result (λ flags. flags.items ≡ map
        (λ name. is_true (first_value (found_of matches.now) name))
        (map (λ name. name.now) names.now)) }
{
    let mut flags = Vec::new(alloc);
    for name in names {
        flags.push(matches.get_str(name) == Some("true"))?;
    }
    Ok(flags)
}

/// The text of each option that is given.
pub(crate) fn options_in<'a>(
    alloc: Global,
    names: &[&str],
    matches: &ArgMatches<'a>,
) -> Result<Vec<Option<&'a str>>, AllocError>
    ensures { IfOk result (λ options. map
        (λ text. option_map (λ t. t.now) text) options.items ≡ map
        (first_value (found_of matches.now)) (map (λ name. name.now) names.now)) }
{
    let mut options = Vec::new(alloc);
    for name in names {
        options.push(matches.get_str(name))?;
    }
    Ok(options)
}

/// The texts of the operands, or `None` if one is not given.
pub(crate) fn operands_in<'a>(
    alloc: Global,
    names: &[&str],
    matches: &ArgMatches<'a>,
) -> Result<Option<Vec<&'a str>>, AllocError>
    ensures { IfOk result (λ operands. option_map
        (λ texts. map (λ t. t.now) texts.items) operands ≡ all_texts
        (map (first_value (found_of matches.now)) (map (λ name. name.now) names.now))) }
{
    let mut operands = Vec::new(alloc);
    for name in names {
        match matches.get_str(name) {
            None => return Ok(None),
            Some(text) => operands.push(text)?,
        }
    }
    Ok(Some(operands))
}
