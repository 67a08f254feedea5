//! One line of a certificate.

ghost use Rattle.std.specs.Prelude.{◌≡◌, ◌∷◌, [], true, false, IfErr, IfOk};
ghost use Rattle.std.specs.Result.{result_map_both};
ghost use Rattle.net_model.specs.LineReading.{read_by, words_at};
ghost use Rattle.net_model.specs.Numbers.{natural_of, integer_of};
ghost use Rattle.texts.specs.Words.{words};
ghost use Rattle.cert_format.specs.Kind.{has_label};
ghost use Rattle.cert_format.specs.declared.read.CertText.{CertText};
ghost use Rattle.sectioned_texts.specs.Reading.{line_after};
ghost use Rattle.cert_format.specs.CertificateGrammar.{IsCertificateFaultAlone, IsCertificateLine};
ghost use Rattle.cert_format.specs.CertificateGrammar.{certificate_lines};
ghost use Rattle.cert_format.specs.CertificateFormat.{cert_text};
ghost use Rattle.cert_format.specs.Limits.{most_written_weight, most_line_number};
ghost use Rattle.cert_format.specs.LineForms.{edge_places, labelled_places, unlabelled, labelled};
ghost use Rattle.cert_format.specs.LineForms.{lone_form, walk_form, order_form, edge_form};
ghost use Rattle.cert_format.specs.LineForms.{upper_form, bound_form, link_form, no_form, up_form};
ghost use Rattle.cert_format.specs.LineForms.{low_form, cross_form, drop_form};

use crate::entry::Entry;
use crate::keyword::Keyword;
use crate::kind::LineKind;
use crate::limits::{MOST_LINE_NUMBER, MOST_WRITTEN_WEIGHT};
use crate::line::CertLine;
use net_model::{FormatKind, Name, Weight, WordFault, text};
use sectioned_texts::version_one;

/// A line of a certificate.
#[derive(Clone, Copy, Debug, PartialEq, Eq)]
pub enum CertText {
    /// A line without words, or whose first word begins with `#`.
    Blank,
    /// The header `certificate 1`.
    Header,
    /// The second line, `refutation`.
    Refutation,
    /// The second line, `table`.
    Table,
    /// A rule line.
    Line(CertLine),
    /// An edge of the walk: the number of its rule line.
    Walk(u64),
    /// A point of the order.
    Order(Name),
    /// An entry of the table.
    Entry(Entry),
    /// The last line, `end`.
    End,
}

/// Reads one line of a certificate, alone. The fault is the first one: `UnknownWord` of the first
/// word, `WordCount`, and then `BadName`, `BadNumber` or `NumberLimit` of the words from left to
/// right. A line whose first word is `certificate` is the header `certificate 1` or `UnknownWord`.
/// It takes no memory, so `OutOfMemory` never comes.
pub fn read_cert_line(line: &[u8]) -> Result<CertText, WordFault>
    ensures reads { result ≡ result_map_both (λ read. read) (λ kind. WordFault.Kind kind)
        (cert_text (words line.now)) }
    ensures grammar { IfOk result (λ read. IsCertificateLine read line.now) }
    ensures every { (read : CertText) → IsCertificateLine read line.now → result ≡ Ok read }
    ensures fault { IfErr result (IsCertificateFaultAlone line.now) }
{
    read_alone(line)
}

fn read_alone(line: &[u8]) -> Result<CertText, WordFault>
    ensures { result ≡ result_map_both (λ read. read) (λ kind. WordFault.Kind kind)
        (cert_text (words line.now)) }
{
    Ok(cert_text(line)?)
}

/// Reads one line of a certificate by its words.
#[tactic(auto, unfolding(crate::specs::CertificateFormat::cert_text))]
pub(crate) fn cert_text(line: &[u8]) -> Result<CertText, FormatKind>
    ensures { result ≡ cert_text (words line.now) }
{
    let Some((first, rest)) = texts::first_word(line) else {
        return Ok(CertText::Blank);
    };
    match Keyword::of(first) {
        None => Err(FormatKind::UnknownWord),
        Some(keyword) => line_of(keyword, rest),
    }
}

/// The words after the first word of a line.
pub(crate) fn line_of(keyword: Keyword, rest: &[u8]) -> Result<CertText, FormatKind>
    ensures { result ≡ line_after certificate_lines keyword (words rest.now) }
{
    match keyword {
        Keyword::Certificate => version_one(CertText::Header, rest),
        Keyword::Refutation => lone_word(CertText::Refutation, rest),
        Keyword::Table => lone_word(CertText::Table, rest),
        Keyword::Bound => bound_line(rest),
        Keyword::Link => link_line(rest),
        Keyword::No => no_line(rest),
        Keyword::Up => up_line(rest),
        Keyword::Low => low_line(rest),
        Keyword::Cross => cross_line(rest),
        Keyword::Drop => drop_line(rest),
        Keyword::Walk => walk_line(rest),
        Keyword::Order => order_line(rest),
        Keyword::Edge => edge_line(rest),
        Keyword::Upper => upper_line(rest),
        Keyword::End => lone_word(CertText::End, rest),
    }
}

/// What stands after a word that is a line by itself.
fn lone_word(said: CertText, rest: &[u8]) -> Result<CertText, FormatKind>
    ensures { result ≡ read_by (lone_form said) (words rest.now) }
{
    text::no_more(rest)?;
    Ok(said)
}

/// The words after `walk`.
fn walk_line(rest: &[u8]) -> Result<CertText, FormatKind>
    ensures { result ≡ read_by walk_form (words rest.now) }
{
    let first = text::one(rest)?;
    Ok(CertText::Walk(number(first)?))
}

/// The words after `order`.
fn order_line(rest: &[u8]) -> Result<CertText, FormatKind>
    ensures { result ≡ read_by order_form (words rest.now) }
{
    let point = text::one(rest)?;
    Ok(CertText::Order(text::name(point)?))
}

/// The words after `edge`.
fn edge_line(rest: &[u8]) -> Result<CertText, FormatKind>
    ensures { result ≡ read_by edge_form (words rest.now) }
{
    let (from, to, weight) = text::three(rest)?;
    edge_entry(from, to, weight)
}

/// An entry without a label.
fn edge_entry(from: &[u8], to: &[u8], weight: &[u8]) -> Result<CertText, FormatKind>
    ensures { result ≡ words_at edge_places edge_form.make (from.now ∷ to.now ∷ weight.now ∷ []) }
{
    Ok(CertText::Entry(Entry {
        from: text::name(from)?,
        to: Some(text::name(to)?),
        label: None,
        weight: weight_of(weight)?,
    }))
}

/// The words after `upper`.
fn upper_line(rest: &[u8]) -> Result<CertText, FormatKind>
    ensures { result ≡ read_by upper_form (words rest.now) }
{
    let (from, label, weight) = text::three(rest)?;
    upper_entry(from, label, weight)
}

/// An entry with a label.
fn upper_entry(from: &[u8], label: &[u8], weight: &[u8]) -> Result<CertText, FormatKind>
    ensures { result ≡ words_at edge_places upper_form.make
        (from.now ∷ label.now ∷ weight.now ∷ []) }
{
    Ok(CertText::Entry(Entry {
        from: text::name(from)?,
        to: None,
        label: Some(text::name(label)?),
        weight: weight_of(weight)?,
    }))
}

/// The words after `bound`.
fn bound_line(rest: &[u8]) -> Result<CertText, FormatKind>
    ensures { result ≡ read_by bound_form (words rest.now) }
{
    let (name, from, to, weight) = text::four(rest)?;
    let kind = LineKind::Bound(text::name(name)?);
    unlabelled(kind, from, to, weight)
}

/// The words after `link`.
fn link_line(rest: &[u8]) -> Result<CertText, FormatKind>
    ensures { result ≡ read_by link_form (words rest.now) }
{
    let (name, from, to, weight) = text::four(rest)?;
    let kind = LineKind::Link(text::name(name)?);
    unlabelled(kind, from, to, weight)
}

/// The words after `no`.
fn no_line(rest: &[u8]) -> Result<CertText, FormatKind>
    ensures { result ≡ read_by no_form (words rest.now) }
{
    let (first, second, from, to, weight) = text::five(rest)?;
    let kind = LineKind::No(number(first)?, number(second)?);
    unlabelled(kind, from, to, weight)
}

/// The words after `up`.
fn up_line(rest: &[u8]) -> Result<CertText, FormatKind>
    ensures { result ≡ read_by up_form (words rest.now) }
{
    let (first, second, from, to, label, weight) = text::six(rest)?;
    let kind = LineKind::Up(number(first)?, number(second)?);
    labelled(kind, from, to, label, weight)
}

/// The words after `low`.
fn low_line(rest: &[u8]) -> Result<CertText, FormatKind>
    ensures { result ≡ read_by low_form (words rest.now) }
{
    let (name, second, from, to, weight) = text::five(rest)?;
    let kind = LineKind::Low(text::name(name)?, number(second)?);
    unlabelled(kind, from, to, weight)
}

/// The words after `cross`.
fn cross_line(rest: &[u8]) -> Result<CertText, FormatKind>
    ensures { result ≡ read_by cross_form (words rest.now) }
{
    let (name, second, from, to, label, weight) = text::six(rest)?;
    let kind = LineKind::Cross(text::name(name)?, number(second)?);
    labelled(kind, from, to, label, weight)
}

/// The words after `drop`.
fn drop_line(rest: &[u8]) -> Result<CertText, FormatKind>
    ensures { result ≡ read_by drop_form (words rest.now) }
{
    let (second, from, to, weight) = text::four(rest)?;
    let kind = LineKind::Drop(number(second)?);
    unlabelled(kind, from, to, weight)
}

/// The end of a rule line whose edge has no label.
fn unlabelled(kind: LineKind, from: &[u8], to: &[u8], weight: &[u8]) -> Result<CertText, FormatKind>
    requires { false ≡ has_label kind }
    ensures { (none : false ≡ has_label kind)
        → result ≡ words_at edge_places (unlabelled kind none)
        (from.now ∷ to.now ∷ weight.now ∷ []) }
{
    Ok(CertText::Line(CertLine {
        kind,
        from: text::name(from)?,
        to: text::name(to)?,
        label: None,
        weight: weight_of(weight)?,
    }))
}

/// The end of a rule line whose edge has a label.
fn labelled(
    kind: LineKind,
    from: &[u8],
    to: &[u8],
    label: &[u8],
    weight: &[u8],
) -> Result<CertText, FormatKind>
    requires { true ≡ has_label kind }
    ensures { (one : true ≡ has_label kind)
        → result ≡ words_at labelled_places (labelled kind one)
        (from.now ∷ to.now ∷ label.now ∷ weight.now ∷ []) }
{
    Ok(CertText::Line(CertLine {
        kind,
        from: text::name(from)?,
        to: text::name(to)?,
        label: Some(text::name(label)?),
        weight: weight_of(weight)?,
    }))
}

/// The number of a line.
fn number(word: &[u8]) -> Result<u64, FormatKind>
    ensures { result ≡ natural_of most_line_number word.now }
{
    text::natural(word, MOST_LINE_NUMBER)
}

/// The weight of an edge.
pub(crate) fn weight_of(word: &[u8]) -> Result<Weight, FormatKind>
    ensures { result ≡ integer_of most_written_weight word.now }
{
    text::integer(word, MOST_WRITTEN_WEIGHT)
}
