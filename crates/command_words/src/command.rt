//! A command as `clap` knows it.

ghost use Rattle.std.specs.Prelude.{◌≡◌, map, false, IfOk};
ghost use Rattle.clap.specs.Words.{app_of, rule_of};
ghost use Rattle.command_words.specs.ClapRules.{app_for, app_with, bare_app, clap_rule_for};
ghost use Rattle.command_words.specs.ClapRules.{with_named};

use crate::syntax::Syntax;
use clap::{Arg, ArgAction, Command};
use std::alloc::{AllocError, Global};

/// What a name stands for.
#[derive(Clone, Copy)]
enum Kind {
    Flag,
    Option,
    Operand,
}

/// The command of this syntax. `AllocError` comes only for want of memory.
pub(crate) fn command_of<'a>(alloc: Global, syntax: &Syntax<'a>) -> Result<Command<'a>, AllocError>
    ensures { IfOk result (λ command. app_of command ≡ app_for syntax.now) }
{
    command_with(alloc, syntax.flags, syntax.options, syntax.operands)
}

/// The command of these flags, options and operands.
fn command_with<'a>(
    alloc: Global,
    flags: &[&'a str],
    options: &[&'a str],
    operands: &[&'a str],
) -> Result<Command<'a>, AllocError>
    ensures { IfOk result (λ command. app_of command ≡ app_with (map (λ name. name.now) flags.now)
        (map (λ name. name.now) options.now) (map (λ name. name.now) operands.now)) }
{
    let command = with_names(bare(alloc), alloc, Kind::Flag, flags)?;
    let command = with_names(command, alloc, Kind::Option, options)?;
    with_names(command, alloc, Kind::Operand, operands)
}

/// A command without arguments, that answers neither for help nor for a version.
fn bare<'a>(alloc: Global) -> Command<'a>
    ensures { app_of result ≡ bare_app }
{
    Command::new(alloc, "")
        .no_binary_name(true)
        .disable_help_flag(true)
        .disable_version_flag(true)
}

/// The command with an argument more for each of these names.
fn with_names<'a>(
    command: Command<'a>,
    alloc: Global,
    kind: Kind,
    names: &[&'a str],
) -> Result<Command<'a>, AllocError>
    ensures { IfOk result (λ r. app_of r ≡ with_named kind (map (λ name. name.now) names.now)
        (app_of command.entry)) }
{
    let mut command = command;
    for name in names {
        command = command.arg(argument(alloc, kind, name))?;
    }
    Ok(command)
}

/// The argument of a name.
fn argument<'a>(alloc: Global, kind: Kind, name: &'a str) -> Arg<'a>
    ensures rule { rule_of result ≡ clap_rule_for kind name.entry.now }
    ensures local { result.global ≡ false }
{
    let argument = Arg::new(alloc, name);
    match kind {
        Kind::Flag => argument.long(name).action(ArgAction::SetTrue),
        Kind::Option => argument.long(name).action(ArgAction::Set),
        Kind::Operand => argument.action(ArgAction::Set),
    }
}
