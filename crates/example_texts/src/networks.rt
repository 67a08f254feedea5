//! Networks: their points, links and the faults of their parts.

use crate::rows::network;
use net_model::{BoundId, BuildFault, Items, LinkId, Name, Network, Part, PointId, Which};
use std::alloc::{AllocError, Global};
use std::process::Abort;
use std::test::Fail;

/// Four points, of which a bound bears the name of one, and three links.
const LARGER: &str =
    "stnu 1|point A|point B|point C|point D|bound b A B -5|link A 1 9 B|link A 2 30 D|link D 4 4 C|bound D C C 7|end";

/// Three points, of which C ends a link that begins in A.
const P5: &str = "stnu 1|point A|point C|point D|bound b1 D C 1|bound b2 C D -1|link A 3 8 C|end";

fn look_up(rt: &impl Abort, net: &Network) {
    let rows = [
        ("A", Some(PointId(0)), None),
        ("D", Some(PointId(3)), Some(BoundId(1))),
        ("b", None, Some(BoundId(0))),
        ("E", None, None),
        ("", None, None),
    ];
    for (text, point, bound) in rows {
        let found = (net.point(text.as_bytes()), net.bound(text.as_bytes()));
        assert_eq!(rt; found, (point, bound), "{text}");
    }
}

fn links_of_points(rt: &impl Abort, alloc: Global, net: &Network) -> Result<(), AllocError> {
    let rows = [
        (PointId(0), None, [LinkId(0), LinkId(1)].as_slice()),
        (PointId(1), Some(LinkId(0)), [].as_slice()),
        (PointId(2), Some(LinkId(2)), [].as_slice()),
        (PointId(3), Some(LinkId(1)), [LinkId(2)].as_slice()),
    ];
    for (point, ending, beginning) in rows {
        try_links(rt, alloc, net, point, ending, beginning)?;
    }
    Ok(())
}

/// The link that ends in a point, and those that begin in it.
fn try_links(
    rt: &impl Abort,
    alloc: Global,
    net: &Network,
    point: PointId,
    ending: Option<LinkId>,
    beginning: &[LinkId],
) -> Result<(), AllocError> {
    if (point.0 as usize) < net.points().len() {
        let found = (net.activation(point), net.is_contingent(point));
        assert_eq!(rt; found, (ending, ending.is_some()));
        let links = net.links_from(alloc, point)?;
        assert_eq!(rt; links.as_slice(), beginning);
    }
    Ok(())
}

#[test]
fn readers_of_a_network(rt: HostRuntime) -> Result<(), Fail> {
    let net = network(rt.alloc(), LARGER)?;
    see_sizes(&rt, &net);
    look_up(&rt, &net);
    Ok(links_of_points(&rt, rt.alloc(), &net)?)
}

fn see_sizes(rt: &impl Abort, net: &Network) {
    assert_eq!(rt;
        (net.points().len(), net.bounds().len(), net.links().len()),
        (4, 2, 3)
    );
    assert_eq!(rt; net.greatest(), 30);
}

/// The links that begin in the first point of a network that has points.
fn links_of_first(alloc: Global, net: &Network) -> Result<Vec<LinkId>, AllocError> {
    if net.points().is_empty() {
        return Ok(Vec::new(alloc));
    }
    net.links_from(alloc, PointId(0))
}

#[test]
fn links_from_a_point(rt: HostRuntime) -> Result<(), Fail> {
    let net = network(rt.alloc(), P5)?;
    let links = links_of_first(rt.alloc(), &net)?;
    assert_eq!(rt; links.as_slice(), [LinkId(0)].as_slice());
    Ok(())
}

/// Why two parts of one name build nothing.
fn refusal(alloc: Global, name: Name) -> Option<BuildFault> {
    let parts = [Part::Point(name), Part::Point(name)];
    Network::build(alloc, &parts).err()
}

#[test]
fn faults_of_building(rt: HostRuntime) -> Result<(), Fail> {
    let fault = refusal(rt.alloc(), Name::new(b"A")?);
    assert_eq!(rt; fault, Some(BuildFault::DuplicateName(2)));
    assert_eq!(rt; BuildFault::Limit(Which::Bounds, 7).place(), Some(7));
    assert_eq!(rt; BuildFault::OutOfMemory.place(), None);
    Ok(())
}

#[test]
fn items(rt: HostRuntime) -> Result<(), Fail> {
    let items = Items::new([3, 1, 2].to_vec(rt.alloc())?);
    assert_eq!(rt; items.as_slice(), [3, 1, 2].as_slice());
    assert_eq!(rt; items.into_vec().as_slice(), [3, 1, 2].as_slice());
    Ok(())
}
