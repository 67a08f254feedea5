//! The test of a table: whether it is forward closed.

ghost use Rattle.std.specs.Prelude.{◌≡◌, ◌<◌, ◌≤◌, ◌≤ℤ◌, ◌<ℤ◌, ◌+◌, ◌++◌, ℕ, List, pos, true};
ghost use Rattle.std.specs.Prelude.{length, Ok, IfOk, IfSome};
ghost use Rattle.std.specs.List.{All};
ghost use Rattle.closure_model.specs.Derivable.{IsDerivable};
ghost use Rattle.closure_model.specs.Tables.{HasEdge, HasAtMost, IsForwardClosed};
ghost use Rattle.network_closure.specs.Saturation.{IsPartialClosure};
ghost use Rattle.forward_closure.specs.declared.source.Source.{Source};
ghost use Rattle.forward_closure.specs.ForwardTest.{SaturatesForward, SaturatesFirsts};
ghost use Rattle.forward_closure.specs.ForwardTest.{SaturatesInto, SaturatesLabelled};
ghost use Rattle.forward_closure.specs.ForwardTest.{SaturatesForwardRow, SaturatesForwardShare};
ghost use Rattle.forward_closure.specs.ForwardTest.{AreNoWords, AreWordsOfRow, AreMetBy};
ghost use Rattle.forward_closure.specs.Sources.{edge_from, AreStorable, AreWordsOfSources};
ghost use Rattle.forward_closure.specs.SparseRows.{AreRowsOf};

use crate::source::Source;
use crate::sparse_rows::SparseRows;
use labelled_graph::Table;
use net_model::{Edge, LinkId, Network, PointId};
use network_closure::{over_link, without_label};
use std::alloc::{AllocError, Global};
use std::thread::{Threads, map_indices};

/// How many rows a worker has at least: with fewer, starting a thread takes longer than testing
/// them.
const LEAST_ROWS: usize = 64;

/// The word of a point from which there is no edge.
const ABSENT: i32 = i32::MAX;

/// Whether a table is forward closed: if it is said to be, whatever follows forward from its edges
/// it has, at a weight that is no greater. The table is a partial closure of the network: it has
/// the base edges, and all its edges are derivable. So many workers share the rows, or fewer if
/// there are few rows; they only read the table. While it works it takes 8 bytes for each edge, and
/// for each worker a word for each point. `AllocError` comes only for want of memory.
pub(crate) fn is_forward_closed<R: Threads + Sync>(
    rt: &R,
    alloc: Global,
    table: &Table,
    net: &Network,
    workers: u32,
) -> Result<bool, AllocError>
    requires partial_closure { IsPartialClosure net.now table.now }
    requires workers { 1 ≤ workers }
    ensures { IfOk result (λ closed. closed ≡ true → IsForwardClosed net.now table.now) }
{
    let rows = SparseRows::of(alloc, table, net)?;
    let most = row_count(net) as usize / LEAST_ROWS;
    let shares = most.min(workers as usize);
    if shares < 2 {
        return saturates_share(alloc, table, net, &rows, 0, 1);
    }
    saturates_shares(rt, alloc, table, net, &rows, shares)
}

/// The same by so many workers.
fn saturates_shares<R: Threads + Sync>(
    rt: &R,
    alloc: Global,
    table: &Table,
    net: &Network,
    rows: &SparseRows,
    shares: usize,
) -> Result<bool, AllocError>
    requires partial_closure { IsPartialClosure net.now table.now }
    requires rows { AreRowsOf net.now table.now rows.now }
    requires shares { 0 < shares }
    ensures { IfOk result (λ closed. closed ≡ true → IsForwardClosed net.now table.now) }
{
    let saturated = map_indices(
        rt,
        alloc,
        shares,
        &|share| -> Result<bool, AllocError>
            requires { IsPartialClosure net.now table.now × AreRowsOf net.now table.now rows.now
                × (0 < shares) }
            ensures { IfOk result (λ saturates. saturates ≡ true
                → SaturatesForwardShare net.entry.now table.entry.now share shares) }
        { saturates_share(alloc, table, net, rows, share, shares) },
    )?;
    all_saturated(saturated.as_slice())
}

/// Whether all of some answers are yes.
fn all_saturated(saturated: &[Result<bool, AllocError>]) -> Result<bool, AllocError>
    ensures { IfOk result (λ all. all ≡ true → All (λ one. one ≡ Ok true) saturated.now) }
{
    for one in saturated {
        if !(*one)? {
            return Ok(false);
        }
    }
    Ok(true)
}

/// Whether a table saturates the edges of one share of its rows. The shares take the rows by turns:
/// that of a number has the rows whose numbers leave it as their remainder.
fn saturates_share(
    alloc: Global,
    table: &Table,
    net: &Network,
    rows: &SparseRows,
    share: usize,
    shares: usize,
) -> Result<bool, AllocError>
    requires partial_closure { IsPartialClosure net.now table.now }
    requires rows { AreRowsOf net.now table.now rows.now }
    requires shares { 0 < shares }
    ensures { IfOk result (λ saturates. saturates ≡ true
        → SaturatesForwardShare net.now table.now share shares) }
{
    let mut words = no_words(alloc, net)?;
    for row in 0..row_count(net) {
        if row as usize % shares != share {
            continue;
        }
        if !saturates_row(table, net, rows, &mut words, row) {
            return Ok(false);
        }
    }
    Ok(true)
}

/// A word for each point, of no edge.
fn no_words(alloc: Global, net: &Network) -> Result<Vec<i32>, AllocError>
    ensures { IfOk result (λ words. AreNoWords net.now words.items) }
{
    vec![in alloc; ABSENT; net.points().len()]
}

/// How many rows a table of a network has: one of the ordinary edges into each point, and after
/// them one of the edges labelled by each link.
fn row_count(net: &Network) -> u32
    ensures { result ≡ length net.now.points + length net.now.links }
{
    net.points().len() as u32 + net.links().len() as u32
}

/// Whether a table saturates the edges of a row. The words are those of no edge, and are again.
fn saturates_row(
    table: &Table,
    net: &Network,
    rows: &SparseRows,
    words: &mut Vec<i32>,
    row: u32,
) -> bool
    requires partial_closure { IsPartialClosure net.now table.now }
    requires rows { AreRowsOf net.now table.now rows.now }
    requires words { AreNoWords net.now words.old.items }
    requires row { row < length net.now.points + length net.now.links }
    ensures saturates { result ≡ true → SaturatesForwardRow net.now table.now row }
    ensures words { AreNoWords net.now words.new.items }
{
    let points = net.points().len() as u32;
    if row < points {
        saturates_into(table, net, rows, words, PointId(row))
    } else {
        saturates_labelled(table, net, rows, words, LinkId(row - points))
    }
}

/// Whether a table saturates its ordinary edges into a point. The words are those of no edge, and
/// are again.
fn saturates_into(
    table: &Table,
    net: &Network,
    rows: &SparseRows,
    words: &mut Vec<i32>,
    to: PointId,
) -> bool
    requires partial_closure { IsPartialClosure net.now table.now }
    requires rows { AreRowsOf net.now table.now rows.now }
    requires words { AreNoWords net.now words.old.items }
    requires to_point { to.0 < length net.now.points }
    ensures saturates { result ≡ true → SaturatesInto net.now table.now to }
    ensures words { AreNoWords net.now words.new.items }
{
    let firsts = rows.firsts.at(to.0 as usize);
    let negative = rows.negative.at(to.0 as usize);
    set_words(words, firsts);
    set_words(words, negative);
    let saturated = saturates_sources(table, net, rows, words.as_slice(), to, None, negative);
    clear_words(words, firsts);
    clear_words(words, negative);
    saturated
}

/// Whether a table saturates its edges labelled by a link. The words are those of no edge, and are
/// again.
fn saturates_labelled(
    table: &Table,
    net: &Network,
    rows: &SparseRows,
    words: &mut Vec<i32>,
    link: LinkId,
) -> bool
    requires partial_closure { IsPartialClosure net.now table.now }
    requires rows { AreRowsOf net.now table.now rows.now }
    requires words { AreNoWords net.now words.old.items }
    requires link { link.0 < length net.now.links }
    ensures saturates { result ≡ true → SaturatesLabelled net.now table.now link }
    ensures words { AreNoWords net.now words.new.items }
{
    let to = net.links()[link.0 as usize].from;
    let labelled = rows.labelled.at(link.0 as usize);
    set_words(words, labelled);
    let saturated = saturates_sources(table, net, rows, words.as_slice(), to, Some(link), labelled);
    clear_words(words, labelled);
    saturated
}

/// Sets the word of each source of a list.
fn set_words(words: &mut Vec<i32>, row: &[Source])
    requires { AreStorable (length words.old.items) row.now }
    ensures length { length words.new.items ≡ length words.old.items }
    ensures words { (before : List Source) → AreWordsOfSources before words.old.items
        → AreWordsOfSources (before ++ row.now) words.new.items }
{
    for source in row {
        words[source.from.0 as usize] = source.weight;
    }
}

/// Takes away the word of each source of a list.
fn clear_words(words: &mut Vec<i32>, row: &[Source])
    requires { AreStorable (length words.old.items) row.now }
    ensures length { length words.new.items ≡ length words.old.items }
    ensures words { (others : List Source) → AreWordsOfSources (row.now ++ others) words.old.items
        → AreWordsOfSources others words.new.items }
{
    for source in row {
        words[source.from.0 as usize] = ABSENT;
    }
}

/// Whether a table saturates the edges of some sources of a row, by the words of the row.
fn saturates_sources(
    table: &Table,
    net: &Network,
    rows: &SparseRows,
    words: &[i32],
    to: PointId,
    label: Option<LinkId>,
    sources: &[Source],
) -> bool
    requires partial_closure { IsPartialClosure net.now table.now }
    requires rows { AreRowsOf net.now table.now rows.now }
    requires words { AreWordsOfRow net.now table.now to label words.now }
    requires sources { All (λ source. HasEdge table.now (edge_from source to label)) sources.now }
    ensures { result ≡ true → All (λ source. SaturatesForward net.now table.now
        (edge_from source to label)) sources.now }
{
    for source in sources {
        if !saturates(table, net, rows, words, &source.edge(to, label)) {
            return false;
        }
    }
    true
}

/// Whether a table saturates one of its edges, by the words of the edge's row.
fn saturates(table: &Table, net: &Network, rows: &SparseRows, words: &[i32], edge: &Edge) -> bool
    requires partial_closure { IsPartialClosure net.now table.now }
    requires rows { AreRowsOf net.now table.now rows.now }
    requires words { AreWordsOfRow net.now table.now edge.now.to edge.now.label words.now }
    requires edge { HasEdge table.now edge.now }
    ensures { result ≡ true → SaturatesForward net.now table.now edge.now }
{
    has_given(table, net, without_label(net, edge))
        && has_given(table, net, over_link(net, edge))
        && saturates_firsts(table, net, rows, words, edge)
}

/// Whether a table has what a rule gave, if it gave something, at a weight that is no greater.
fn has_given(table: &Table, net: &Network, given: Option<Edge>) -> bool
    requires partial_closure { IsPartialClosure net.now table.now }
    requires given { IfSome given (IsDerivable net.now) }
    ensures { result ≡ true → IfSome given (HasAtMost table.now) }
{
    match given {
        None => true,
        Some(edge) => table.has_at_most(&edge),
    }
}

/// Whether a table saturates one of its edges with every edge of weight 0 or more before it, by the
/// words of the edge's row.
fn saturates_firsts(
    table: &Table,
    net: &Network,
    rows: &SparseRows,
    words: &[i32],
    edge: &Edge,
) -> bool
    requires partial_closure { IsPartialClosure net.now table.now }
    requires rows { AreRowsOf net.now table.now rows.now }
    requires words { AreWordsOfRow net.now table.now edge.now.to edge.now.label words.now }
    requires edge { HasEdge table.now edge.now }
    ensures { result ≡ true → SaturatesFirsts table.now edge.now }
{
    if edge.weight >= 0 {
        return true;
    }
    let firsts = rows.firsts.at(edge.from.0 as usize);
    are_met(firsts, words, Source::of(edge).weight)
}

/// Whether at each of some first edges the words have no more than the sum of its weight and that
/// of a negative edge after it.
fn are_met(firsts: &[Source], words: &[i32], weight: i32) -> bool
    requires firsts { All (λ first. (first.from.0 < length words.now)
        × (pos 0 ≤ℤ first.weight)) firsts.now }
    requires negative { weight <ℤ pos 0 }
    ensures { result ≡ true → AreMetBy firsts.now words.now weight }
{
    for first in firsts {
        if words[first.from.0 as usize] > first.weight + weight {
            return false;
        }
    }
    true
}
