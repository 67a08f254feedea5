//! What is printed of the tightest deadline of a network.

ghost use Rattle.std.specs.Prelude.{◌≤◌};
ghost use Rattle.net_model.specs.Network.{IsPoint};
ghost use Rattle.work_board.specs.Limits.{most_seats};
ghost use Rattle.cert_format.specs.CertificateWords.{HasWeights};

use cert_format::{Certificate, print_certificate};
use deadline_search::{Deadline, DeadlineFault, tightest};
use net_model::{Network, PointId};
use parallel_rounds::Gate;
use std::alloc::{AllocError, Global};
use std::test::Fail;
use std::thread::Threads;

/// The tightest deadline between two points of a network: the number, or what stands in its place,
/// and then the certificates. It fails if a point is not one of the network, and if memory is
/// refused.
pub fn printed_between<R: Threads + Sync, G: Gate>(
    rt: &R,
    alloc: Global,
    net: Network,
    ends: (&str, &str),
    workers: u32,
    gate: &G,
) -> Result<Vec<u8>, Fail>
    requires { (1 ≤ workers) × (workers ≤ most_seats) }
{
    let from = point(&net, ends.0)?;
    let to = point(&net, ends.1)?;
    let points = net.points().len();
    if from.0 as usize >= points || to.0 as usize >= points {
        return Err(Fail::from("no such point"));
    }
    Ok(printed(rt, alloc, net, from, to, workers, gate)?)
}

fn point(net: &Network, name: &str) -> Result<PointId, Fail> {
    match net.point(name.as_bytes()) {
        Some(point) => Ok(point),
        None => Err(Fail::from("no such point")),
    }
}

fn printed<R: Threads + Sync, G: Gate>(
    rt: &R,
    alloc: Global,
    net: Network,
    from: PointId,
    to: PointId,
    workers: u32,
    gate: &G,
) -> Result<Vec<u8>, AllocError>
    requires from_point { IsPoint net from }
    requires to_point { IsPoint net to }
    requires workers { (1 ≤ workers) × (workers ≤ most_seats) }
{
    match tightest(rt, alloc, net, from, to, workers, gate) {
        Ok(Deadline::NotControllable { refutation }) => {
            certified(alloc, "not controllable", &refutation)
        }
        Ok(Deadline::Never { refutation, .. }) => certified(alloc, "none", &refutation),
        Ok(Deadline::Floor { proof, .. }) => certified(alloc, "at-most", &proof),
        Ok(
            Deadline::Least {
                most,
                proof,
                refutation,
                ..
            },
        ) => {
            let number = most.to_string(alloc)?;
            let mut text = certified(alloc, number.as_str(), &proof)?;
            text.extend_from_slice(print_certificate(alloc, &refutation)?.as_slice())?;
            Ok(text)
        }
        Err(DeadlineFault::Full) => Vec::from_slice(alloc, b"full\n"),
        Err(DeadlineFault::OutOfMemory) => Err(AllocError),
    }
}

/// A line, and then a certificate.
fn certified(alloc: Global, line: &str, cert: &Certificate) -> Result<Vec<u8>, AllocError>
    requires { HasWeights cert.now }
{
    let mut text = Vec::from_slice(alloc, line.as_bytes())?;
    text.push(b'\n')?;
    text.extend_from_slice(print_certificate(alloc, cert)?.as_slice())?;
    Ok(text)
}
