//! The judge of certificates: refutations and table proofs.

ghost use Rattle.std.specs.Prelude.{◌≡◌, IfOk, IsOk, Ok, []};
ghost use Rattle.net_model.specs.ShownForm.{shown_form};
ghost use Rattle.strategy_model.specs.Control.{IsControllable};
ghost use Rattle.cert_checker.specs.Judgement.{IsRefutation, lines_pass, judgement_of};
ghost use Rattle.cert_checker.specs.Truth.{AreTrueAsShown, passed_lines};

use crate::judgement::{Claim, Judgement, RefusedLine};
use crate::laws;
use crate::rules::line_passes;
use crate::shown::ShownNetwork;
use crate::table::judge_table;
use crate::walk::walk_passes;
use cert_format::{CertLine, Certificate};
use net_model::Network;
use std::alloc::{AllocError, Global};
use std::thread::Threads;

/// The judgement of a certificate of a network: it is accepted, or refused at the first line that
/// does not pass. An accepted refutation shows that no strategy controls the network, an accepted
/// table proof that one does (Morris and Muscettola 2005, in this project's form), whoever wrote
/// it. The network is given as it is stated, with any delay; the certificate is one of its shown
/// form, whose numbers are read as they are needed. Lines are counted from 1 as the certificate
/// counts them, the walk lines after the rule lines and the entries after the order.
///
/// Of a line of a refutation its names are tried first, then its weight, its premises, their
/// labels, the condition of its rule, its ends, and the least weight that the rule gives; then each
/// step of the walk, whether it is closed, and its total. It takes no memory, and the answer is
/// always `Ok`.
///
/// Of a table proof the names and the weight of each line are tried first; then the edges of the
/// bounds and of the links, at no line; the order, its points and then the entries; and last for
/// each entry what the rules give with it. The scans go by the threads of `rt`, and the first
/// refused place is that of one thread; that several threads run no clause says. `AllocError` comes
/// only for want of memory.
pub fn judge<R: Threads + Sync>(
    rt: &R,
    alloc: Global,
    net: &Network,
    cert: &Certificate,
) -> Result<Judgement, AllocError>
    ensures ok { IsRefutation cert.now → IsOk result }
    ensures judged { IfOk result (λ judgement. judgement ≡ judgement_of
        (shown_form net.now) cert.now) }

    // What a certificate says is so, whoever wrote it.
    ensures true_lines { IfOk result
        (λ judgement. AreTrueAsShown net.now (passed_lines cert.now judgement)) }
    ensures excludes { result ≡ Ok (Judgement.Accepted Claim.NotControllable)
        → ¬ IsControllable net.now }
    ensures controls { result ≡ Ok (Judgement.Accepted Claim.Controllable)
        → IsControllable net.now }
{
    laws::law_passed_lines_are_true();
    laws::law_accepted_excludes();
    laws::law_accepted_controls();
    net.points();
    judgement_of(rt, alloc, ShownNetwork::of(net), cert)
}

/// The judgement of a certificate, whatever it is of.
fn judgement_of<R: Threads + Sync>(
    rt: &R,
    alloc: Global,
    net: ShownNetwork,
    cert: &Certificate,
) -> Result<Judgement, AllocError>
    ensures ok { IsRefutation cert.now → IsOk result }
    ensures judged { IfOk result (λ judgement. judgement ≡ judgement_of net.entry cert.now) }
{
    match cert {
        Certificate::Refutation { lines, walk } => {
            Ok(judge_refutation(&net, lines.as_slice(), walk.as_slice()))
        }
        Certificate::TableProof { order, entries } => {
            judge_table(rt, alloc, net, order.as_slice(), entries.as_slice())
        }
    }
}

/// The judgement of a refutation: its lines, then its walk.
#[tactic(auto, unfolding(crate::specs::Judgement::refutation_passes))]
fn judge_refutation(net: &ShownNetwork, lines: &[CertLine], walk: &[u64]) -> Judgement
    ensures { result ≡ judgement_of net.now (Certificate.Refutation lines.now walk.now) }
{
    if let Err(RefusedLine { line, why }) = lines_pass(net, lines) {
        return Judgement::Refused { line, why };
    }
    match walk_passes(lines, walk) {
        Ok(()) => Judgement::Accepted(Claim::NotControllable),
        Err(RefusedLine { line, why }) => Judgement::Refused { line, why },
    }
}

/// Each line passes, by the lines before it.
fn lines_pass(net: &ShownNetwork, lines: &[CertLine]) -> Result<(), RefusedLine>
    ensures { result ≡ lines_pass net.now [] lines.now }
{
    for (index, line) in lines.iter().enumerate() {
        if let Err(why) = line_passes(net, &lines[..index], line) {
            return Err(RefusedLine {
                line: index as u64 + 1,
                why,
            });
        }
    }
    Ok(())
}
