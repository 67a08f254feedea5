//! Laws about sessions, each the contract of a function without parameters.

ghost use Rattle.plan_session.specs.Laws.{SessionsOpenInOneWay, EditsAreFollowedInOneWay};
ghost use Rattle.plan_session.specs.Laws.{BrokenSessionsSaySo};

use closure_model::round_laws::law_rounds_end_in_one_way;

/// A session is opened in one way: its derivations are a function of the network.
pub fn law_sessions_open_in_one_way()
    ensures { SessionsOpenInOneWay }
{
    law_rounds_end_in_one_way();
}

/// A session follows an edit in one way: its derivations then, and the report, are a function of
/// those before, the edit and the networks.
pub fn law_edits_are_followed_in_one_way()
    ensures { EditsAreFollowedInOneWay }
{
    law_rounds_end_in_one_way();
}

/// A broken session answers every edit by `Broken` and stays as it is, and so it answers whoever
/// asks for its verdict or its certificate. So it is from want of memory on, up to a `reopen` that
/// succeeds.
pub fn law_broken_sessions_say_so()
    ensures { BrokenSessionsSaySo }
{}
