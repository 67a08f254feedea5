//! The judgement of a strong certificate.

ghost use Rattle.std.specs.Prelude.{◌≡◌};
ghost use Rattle.strong_plan.specs.Strong.{IsStronglyControllable};
ghost use Rattle.strong_plan.specs.Judgement.{cert_passes, judgement_of};

use crate::judgement::{RefusedStrongLine, StrongJudgement};
use crate::laws;
use crate::lines::{bound_lines_pass, strong_walk_passes};
use crate::ring::{follows, last_name, points_pass};
use cert_format::{StrongCert, StrongLine};
use net_model::{Name, Network};

/// The judgement of a strong certificate of a network as it is stated, whatever its delay. The
/// lines are tried one by one, each for `UnknownItem`, `WeightRange`, `Ends` and `TooLow` in this
/// order, and then the walk: `WalkBroken`, and after it `WalkNotNegative`. An accepted certificate
/// shows that no one schedule of the executable points is right in every situation, whoever wrote
/// it. If it has points of a ring, they decide. It takes no memory.
pub fn judge_strong(net: &Network, cert: &StrongCert) -> StrongJudgement
    ensures strong_judged { result ≡ judgement_of net.now cert.now }
    ensures excludes { result ≡ StrongJudgement.Accepted → ¬ IsStronglyControllable net.now }
{
    laws::law_accepted_excludes();
    net.sound();
    judgement_of(net, cert)
}

fn judgement_of(net: &Network, cert: &StrongCert) -> StrongJudgement
    ensures { result ≡ judgement_of net.now cert.now }
{
    match cert_passes(net, cert.by.as_slice(), cert.ring.as_slice()) {
        Ok(()) => StrongJudgement::Accepted,
        Err(RefusedStrongLine { line, why }) => StrongJudgement::Refused { line, why },
    }
}

/// Whether all lines and their walk pass, or the first line that does not, and why.
fn cert_passes(net: &Network, lines: &[StrongLine], ring: &[Name]) -> Result<(), RefusedStrongLine>
    ensures { result ≡ cert_passes net.now lines.now ring.now }
{
    match ring.split_first() {
        None => match bound_lines_pass(net, lines) {
            Ok(()) => strong_walk_passes(lines),
            Err(RefusedStrongLine { line, why }) => Err(RefusedStrongLine { line, why }),
        },
        Some((first, rest)) => match points_pass(net, ring) {
            Ok(()) => follows(net, &last_name(first, rest), ring),
            Err(RefusedStrongLine { line, why }) => Err(RefusedStrongLine { line, why }),
        },
    }
}
