//! The edges of bounds and links that the entries of a table proof must contain.

ghost use Rattle.std.specs.Prelude.{◌≡◌, ◌++◌, IfOk, OnOk, map};
ghost use Rattle.std.specs.List.{enumerate_from};
ghost use Rattle.cert_checker.specs.Tables.{base_of, base_of_bound, base_of_link};

use crate::judgement::CertFault;
use crate::shown::ShownNetwork;
use net_model::{BoundId, Edge, LinkId, bound_edge, link_edge};
use std::alloc::{AllocError, Global};

/// The edge of a bound or of a link, and what is refused if it is missing.
#[derive(Clone, Copy)]
pub(crate) struct Base {
    pub(crate) edge: Edge,
    pub(crate) missing: CertFault,
}

/// Those of bounds, in order, and then those of links.
pub(crate) fn base_of(alloc: Global, net: &ShownNetwork) -> Result<Vec<Base>, AllocError>
    ensures { IfOk result (λ base. base.items ≡ base_of net.now) }
{
    let mut base = Vec::new(alloc);
    push_bounds(net, &mut base)?;
    push_links(net, &mut base)?;
    Ok(base)
}

fn push_bounds(net: &ShownNetwork, base: &mut Vec<Base>) -> Result<(), AllocError>
    ensures { OnOk result (base.new.items ≡ base.old.items ++ map base_of_bound net.now.bounds) }
{
    net.sound();
    for index in 0..net.bound_count() {
        let bound = net.bound_numbered(BoundId(index as u32));
        let edge = bound_edge(&bound);
        let missing = CertFault::MissingBound(bound.name);
        base.push(Base { edge, missing })?;
    }
    Ok(())
}

fn push_links(net: &ShownNetwork, base: &mut Vec<Base>) -> Result<(), AllocError>
    ensures { OnOk result (base.new.items ≡ base.old.items ++ map (base_of_link net.now)
        (enumerate_from 0 net.now.links)) }
{
    net.sound();
    for index in 0..net.link_count() {
        let name = LinkId(index as u32);
        let link = net.link_numbered(name);
        let edge = link_edge(name, &link);
        let missing = CertFault::MissingLink(*net.point_name(link.to));
        base.push(Base { edge, missing })?;
    }
    Ok(())
}
