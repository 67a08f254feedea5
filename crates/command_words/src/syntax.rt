//! The words that a command takes after its own: flags, options and operands.

use std::marker::Model;

/// Which words a command takes after its own, each by its name: flags (`--NAME`), options with a
/// value (`--NAME VALUE` or `--NAME=VALUE`) and operands (`VALUE`). Names are written without
/// hyphens. Flags and options may be given or not, once each and in any order; the operands are
/// given all, in their order.
///
/// A syntax is sound if no name is in it twice, no name of a flag or of an option is empty, has a
/// `=`, or is `help` or `version`, and it has fewer than 10 operands. Whether it is (`is_sound`) a
/// search decides if the names are written out.
#[derive(Drop)]
pub struct Syntax<'a> {
    pub flags: &'a [&'a str],
    pub options: &'a [&'a str],
    pub operands: &'a [&'a str],
}

impl<'a> Model for Syntax<'a> {
    ghost use Rattle.std.specs.Prelude.{map};
    ghost use Rattle.command_words.specs.Syntax as spec;

    ghost Value = { spec.Syntax };

    ghost view = { λ syntax. record {
      flags = map (λ name. name.now) syntax.flags.now;
      options = map (λ name. name.now) syntax.options.now;
      operands = map (λ name. name.now) syntax.operands.now;
    } };
}
