//! Writing a network as a document.

ghost use Rattle.std.specs.Prelude.{◌≡◌, IfOk, map};
ghost use Rattle.net_model.specs.Network.{HasPlanNumbers, IsBound, IsLink, IsPoint};
ghost use Rattle.net_model.specs.NetworkParts.{point_name};
ghost use Rattle.serde_json.specs.Data.{string};
ghost use Rattle.serde_json.specs.View.{view};
ghost use Rattle.plan_json.specs.DocumentText.{DocumentReadsBack, bound_data, document_of};
ghost use Rattle.plan_json.specs.DocumentText.{document_text, link_data};

use net_model::{Bound, Link, Name, Network, PointId};
use serde_json::{Value, json};
use std::alloc::{AllocError, Global};

/// The document of a network, in version 2, in the pretty layout of `serde_json`: an object of
/// `bounds`, `delay`, `links`, `points` and `stnu`, with the members of each item in alphabetical
/// order, and no line end after it. It reads back to the same three lists and the same delay. The
/// numbers of the network are at most 1,000,000,000 in size, as those of a built network are.
/// `AllocError` comes only for want of memory.
#[tactic(auto, using(crate::proofs::WrittenDocumentLemmas::text_is, crate::proofs::WrittenDocumentLemmas::reads_back))]
pub fn to_json(alloc: Global, net: &Network) -> Result<Vec<u8>, AllocError>
    requires { HasPlanNumbers net.now }
    ensures text { IfOk result (λ text. text.items ≡ document_text (document_of net.now)) }
    ensures read_back { IfOk result (λ text. DocumentReadsBack text.items net.now) }
{
    net.sound();
    let document = document_of(alloc, net)?;
    document.to_vec_pretty(alloc)
}

fn document_of(alloc: Global, net: &Network) -> Result<Value, AllocError>
    ensures { IfOk result (λ value. view value ≡ document_of net.now) }
{
    let bounds = bounds_of(alloc, net)?;
    let links = links_of(alloc, net)?;
    let points = texts_of(alloc, net.points())?;
    let delay = net.delay();
    json!(in alloc; {"bounds": bounds, "delay": delay, "links": links, "points": points, "stnu": 2u64})
}

/// The texts of names.
fn texts_of(alloc: Global, names: &[Name]) -> Result<Vec<Value>, AllocError>
    ensures { IfOk result (λ values. map view values.items ≡ map string names.now) }
{
    let mut values = Vec::new(alloc);
    for name in names {
        values.push(Value::try_from_str(alloc, text_of(name))?)?;
    }
    Ok(values)
}

fn bounds_of(alloc: Global, net: &Network) -> Result<Vec<Value>, AllocError>
    ensures { IfOk result (λ values. map view values.items ≡ map
        (bound_data net.now.points) net.now.bounds) }
{
    let mut values = Vec::new(alloc);
    for bound in net.bounds() {
        values.push(bound_data(alloc, net, bound)?)?;
    }
    Ok(values)
}

fn links_of(alloc: Global, net: &Network) -> Result<Vec<Value>, AllocError>
    ensures { IfOk result (λ values. map view values.items ≡ map
        (link_data net.now.points) net.now.links) }
{
    let mut values = Vec::new(alloc);
    for link in net.links() {
        values.push(link_data(alloc, net, link)?)?;
    }
    Ok(values)
}

fn bound_data(alloc: Global, net: &Network, bound: &Bound) -> Result<Value, AllocError>
    requires { IsBound net.now bound.now }
    ensures { IfOk result (λ value. view value ≡ bound_data net.now.points bound.now) }
{
    let from = point_text(net, bound.from);
    let to = point_text(net, bound.to);
    let name = text_of(&bound.name);
    let most = bound.most;
    json!(in alloc; {"from": from, "most": most, "name": name, "to": to})
}

fn link_data(alloc: Global, net: &Network, link: &Link) -> Result<Value, AllocError>
    requires { IsLink net.now link.now }
    ensures { IfOk result (λ value. view value ≡ link_data net.now.points link.now) }
{
    let from = point_text(net, link.from);
    let to = point_text(net, link.to);
    let low = link.low;
    let high = link.high;
    json!(in alloc; {"from": from, "high": high, "low": low, "to": to})
}

fn point_text(net: &Network, point: PointId) -> &str
    requires { IsPoint net.now point }
    ensures { result.now ≡ point_name net.now.points point }
{
    text_of(net.point_name(point))
}

/// The text of a name.
fn text_of(name: &Name) -> &str
    ensures { result.now ≡ name.now }
{
    match str::from_utf8(name.bytes()) {
        Ok(text) => text,
        Err(_) => unreachable!(),
    }
}
