//! Which situation of a network is played.

ghost use Rattle.std.specs.Prelude.{◌≡◌, option_map, IfOk};
ghost use Rattle.strategy_model.specs.Situations.{IsSituation};
ghost use Rattle.play_command.specs.PlayedSituation.{situation_of, which_given, which_of};

use command_contracts::number_within;
use net_model::Network;
use situation_player::{longest, shortest, situation};
use std::alloc::{AllocError, Global};
use strategy_model::Situation;

/// Which situation of a network is played: how long each of its links lasts.
#[derive(Clone, Copy, Debug, PartialEq, Eq)]
pub enum WhichSituation {
    /// Each link lasts its longest duration.
    Longest,
    /// Each link lasts its shortest duration.
    Shortest,
    /// That of a number.
    Numbered(u64),
}

impl WhichSituation {
    /// The situation that a word names: `longest`, `shortest`, or a number of at most
    /// 18446744073709551615. `None` if there is no word, or it names none.
    pub fn given(word: Option<&str>) -> Option<WhichSituation>
        ensures { result ≡ which_given (option_map (λ text. text.now) word.entry) }
    {
        match word {
            Some(word) => WhichSituation::of(word),
            None => None,
        }
    }

    fn of(word: &str) -> Option<WhichSituation>
        ensures { result ≡ which_of word.now }
    {
        match word {
            "longest" => Some(WhichSituation::Longest),
            "shortest" => Some(WhichSituation::Shortest),
            _ => Some(WhichSituation::Numbered(number_within(word.as_bytes(), u64::MAX)?)),
        }
    }

    /// The situation of a network. `AllocError` comes only for want of memory.
    pub fn situation(self, alloc: Global, net: &Network) -> Result<Situation, AllocError>
        ensures is { IfOk result (λ situation. situation.items ≡ situation_of self net.now) }
        ensures situation { IfOk result (λ situation. IsSituation net.now situation.items) }
    {
        match self {
            WhichSituation::Longest => longest(alloc, net),
            WhichSituation::Shortest => shortest(alloc, net),
            WhichSituation::Numbered(number) => situation(alloc, number, net),
        }
    }
}
