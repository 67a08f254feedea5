//! The nodes of the edges that improved in a round, put into a store.

ghost use Rattle.std.specs.Prelude.{◌≡◌, ◌++◌, map, IfOk, OnOk};
ghost use Rattle.closure_model.specs.ReferenceRound.{node_for};
ghost use Rattle.parallel_rounds.specs.StoreUpdate.{first_for, firsts_for, made_in, CanTakeRows};
ghost use Rattle.parallel_rounds.specs.StoreUpdate.{with_rows};

use back_propagation::{MadeEdges, NewRow, Why};
use derivation_dag::{MadeRow, NodeId, Supports};
use net_model::{Edge, Network};
use std::alloc::{AllocError, Global};

/// The nodes that the first premises of the edges that improved in a round have now, row by row:
/// none if the rule takes one premise.
pub(crate) fn firsts_in<S: Supports>(
    alloc: Global,
    store: &S,
    rows: &[NewRow],
) -> Result<Vec<Option<NodeId>>, AllocError>
    ensures { IfOk result (λ firsts. firsts.items ≡ firsts_for (S.support store.now).nodes
        (made_in rows.now)) }
{
    let mut firsts = Vec::new(alloc);
    for row in rows {
        push_row(store, &row.made, &mut firsts)?;
    }
    Ok(firsts)
}

fn push_row<S: Supports>(
    store: &S,
    made: &MadeEdges,
    firsts: &mut Vec<Option<NodeId>>,
) -> Result<(), AllocError>
    ensures { OnOk result (firsts.new.items ≡ firsts.old.items ++ firsts_for
        (S.support store.now).nodes made.now) }
{
    for place in 0..made.len() {
        firsts.push(first_of(store, &made.get(place).why))?;
    }
    Ok(())
}

/// The node that the first premise has, if the rule takes two.
fn first_of<S: Supports>(store: &S, why: &Why) -> Option<NodeId>
    ensures { result ≡ first_for (S.support store.now).nodes why.now }
{
    match why {
        Why::No(first, _) => node_of(store, first),
        Why::Up(first, _) => node_of(store, first),
        Why::Low(_, _) => None,
        Why::Cross(_, _) => None,
        Why::Drop(_) => None,
    }
}

/// The node of the key of an edge.
fn node_of<S: Supports>(store: &S, edge: &Edge) -> Option<NodeId>
    ensures { result ≡ node_for (S.support store.now).nodes edge.now }
{
    store.newest(edge)
}

/// Gives each edge that improved in rows its node, row by row; the nodes of first premises stand in
/// the same order.
pub(crate) fn take_all<S: Supports>(
    alloc: Global,
    net: &Network,
    store: &mut S,
    rows: &[NewRow],
    firsts: &[Option<NodeId>],
) -> Result<(), AllocError>
    requires { CanTakeRows net.now (S.support store.old) rows.now firsts.now }
    ensures { OnOk result (S.support store.new ≡ with_rows
        (S.support store.old) rows.now firsts.now) }
{
    let mut left = firsts;
    for row in rows {
        let made = row.made.to_vec(alloc)?;
        let (here, after) = left.split_at(made.len());
        store.accept_row(
            net,
            &MadeRow {
                target: row.target,
                made: made.as_slice(),
                firsts: here,
            },
        )?;
        left = after;
    }
    Ok(())
}
