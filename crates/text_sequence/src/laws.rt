//! The law of a series of texts, as the contract of a function without parameters.

ghost use Rattle.std.specs.Prelude.{ℕ};
ghost use Rattle.command_engine.specs.Grammars.{ReadsBy};
ghost use Rattle.text_sequence.specs.Series.{series_reader, initial_series};
ghost use Rattle.text_sequence.specs.SeriesGrammar.{series_texts};

use crate::separators::Separators;

/// A series of texts is read by the grammar that is made of that of the texts, wherever it stands
/// in an input. What a line between texts is may depend on the texts before it.
pub fn law_series_are_read<O: Separators>()
    ensures { (separators : O) (past : ℕ)
        → ReadsBy (series_reader O.between O.Text.reader O.initial_text)
        (initial_series separators) past (series_texts O.between O.texts past) }
{
    O::reads_by_grammar();
}
