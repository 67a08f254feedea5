//! Laws about printed certificates: `judge` accepts them. Each is the contract of a function
//! without parameters.

ghost use Rattle.stnu_run.specs.DeadlineCertificates.{DeadlinePutsAccepted};
ghost use Rattle.stnu_run.specs.PrintedCertificates.{BeginsWithOnePlan, PrintsAccepted};
ghost use Rattle.stnu_run.specs.RunClaims.{HoldsOfDefinedRuns};
ghost use Rattle.stnu_run.specs.SessionCertificates.{SessionPutsAccepted};

use check_command::law_check_is_read_exactly;
use command_contracts::Specified;
use deadline_command::{DeadlineQuestion, law_deadline_is_read_exactly};
use judge_command::law_judge_is_read_exactly;
use session_command::{SessionCommand, law_session_is_read_exactly};
use strong_command::law_strong_is_read_exactly;

/// Printed means accepted: if the defined run of `check` for an input puts `not controllable` and a
/// certificate, the defined run of `judge` for the plan of that input and this certificate puts
/// just `accepted not controllable`, with status 0, if both are no more than an input may be. So it
/// is of `check --proof` with `accepted controllable`, and of `strong` and `judge --strong` with
/// `accepted not strongly controllable`. The plan may be of either form, and of `check` have a
/// delay of its own or one that both are asked to take. An input begins with one plan at most.
pub fn law_printed_means_accepted()
    ensures one { BeginsWithOnePlan }
    ensures defined { HoldsOfDefinedRuns PrintsAccepted }
{
    law_check_is_read_exactly();
    law_strong_is_read_exactly();
    law_judge_is_read_exactly();
}

/// What the defined run of `session` puts for a line `proof` is accepted by `judge`, given the plan
/// text of the network as it stands then: that which `plan` prints.
pub fn law_session_proofs_are_accepted()
    ensures { HoldsOfDefinedRuns SessionPutsAccepted }
{
    SessionCommand::keeps_its_promise();
    law_session_is_read_exactly();
    law_judge_is_read_exactly();
}

/// Each certificate that the defined run of `deadline` puts is accepted by `judge`, given the plan
/// text of the network with the bound to which it belongs as its last.
pub fn law_deadlines_are_accepted()
    ensures { HoldsOfDefinedRuns DeadlinePutsAccepted }
{
    DeadlineQuestion::keeps_its_promise();
    law_deadline_is_read_exactly();
    law_judge_is_read_exactly();
}
