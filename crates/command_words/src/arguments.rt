//! What words give to a command.

ghost use Rattle.std.specs.Prelude.{◌≡◌, map, option_map};
ghost use Rattle.command_words.specs.Arguments.{flag_at, operand_at, option_at};

use std::marker::Model;

/// What words give to a command: which of its flags, the value of each of its options, and the
/// texts of its operands. Each of them is found by its place in the `Syntax`, from 0.
#[derive(Drop)]
pub struct Arguments<'a> {
    pub(crate) flags: Vec<bool>,
    pub(crate) options: Vec<Option<&'a str>>,
    pub(crate) operands: Vec<&'a str>,
}

impl<'a> Model for Arguments<'a> {
    ghost use Rattle.std.specs.Prelude.{map, option_map};
    ghost use Rattle.command_words.specs.Arguments as spec;

    ghost Value = { spec.Arguments };

    ghost view = { λ arguments. record {
      flags = arguments.flags.items;
      options = map (λ text. option_map (λ t. t.now) text) arguments.options.items;
      operands = map (λ text. text.now) arguments.operands.items;
    } };
}

impl<'a> Arguments<'a> {
    /// Whether the flag at this place is given. Beyond the last flag none is.
    pub fn flag(&self, place: usize) -> bool
        ensures { result ≡ flag_at place self.now }
    {
        self.flags.get(place).copied().unwrap_or(false)
    }

    /// The value of the option at this place, if it is given. Beyond the last option none is.
    pub fn option(&self, place: usize) -> Option<&'a str>
        ensures { option_map (λ text. text.now) result ≡ option_at place self.now }
    {
        *self.options.get(place)?
    }

    /// The text of the operand at this place. Beyond the last operand there is none.
    pub fn operand(&self, place: usize) -> Option<&'a str>
        ensures { option_map (λ text. text.now) result ≡ operand_at place self.now }
    {
        self.operands.get(place).copied()
    }

    /// The texts of the operands, one for each that the command has.
    pub fn operands(&self) -> &[&'a str]
        ensures { map (λ text. text.now) result.now ≡ self.now.operands }
    {
        &self.operands
    }
}
