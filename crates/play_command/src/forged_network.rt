//! The command `forge`: a network that is forged out of a number, its verdict, and what the judge
//! says of the certificate of it.

ghost use Rattle.std.specs.Prelude.{◌≡◌, ◌≤◌, ◌++◌, option_map, IfOk, IfSome, OnOk};
ghost use Rattle.net_model.specs.ShownForm.{shown_form};
ghost use Rattle.cert_checker.specs.Judgement.{judgement_of};
ghost use Rattle.refutation_certificates.specs.Refutations.{Refutes};
ghost use Rattle.closure_certificates.specs.Certified.{Proves};
ghost use Rattle.dispatch_net.specs.OfClosure.{IsDispatchOfClosure};
ghost use Rattle.situation_player.specs.ForgedParts.{most_tasks};
ghost use Rattle.play_command.specs.ForgeCommand.{PutsAfter, IsLastMoment, PrintsControllable};
ghost use Rattle.play_command.specs.ForgeCommand.{PrintsForged, PrintsRefuted, PrintsVerdict};
ghost use Rattle.play_command.specs.ForgeCommand.{controllable_text, count_line, counts_text};
ghost use Rattle.play_command.specs.ForgeCommand.{forge_request, forge_syntax, greatest_of};
ghost use Rattle.play_command.specs.ForgeCommand.{judged_line, number_given, refuted_text, size_of};
ghost use Rattle.play_command.specs.ForgeCommand.{tasks_given};

use crate::plan_day::played;
use crate::which_situation::WhichSituation;
use cert_checker::{Judgement, judge};
use cert_format::Certificate;
use command_contracts::{NoInput, NoInputEnd, Request, WorkerCount, count_within, number_within};
use command_engine::{Answer, Word};
use command_words::{Arguments, Syntax};
use dispatch_net::Dispatch;
use net_model::Network;
use plan_session::OpenSession;
use situation_player::{MOST_TASKS, forge};
use std::alloc::{AllocError, Global};
use std::marker::Model;
use std::thread::Threads;
use strategy_model::laws::law_at_most_one_earliest;
use strategy_model::laws::shown::law_controllable_is_shown;

/// The greatest number out of which a network is forged.
const MOST_NUMBER: u32 = 2_147_483_647;

/// A network out of a number: the command `forge` forges it, and prints how many points, links and
/// bounds it has. If a strategy controls it, it prints that, how many entries its table proof has
/// and the last moment of its longest day, else that none does and how many lines its refutation
/// has; and then what `judge` says of that certificate: `accepted`. It ends with 0 in the first
/// case, and with 1 in the second. What it prints is `PrintsForged`.
#[derive(Drop)]
pub struct Forge {
    words: ForgeWords,
    workers: WorkerCount,
}

/// What the words of `forge` say.
#[derive(Clone, Copy)]
pub struct ForgeWords {
    number: u32,
    tasks: u32,
}

impl Model for Forge {
    ghost use Rattle.std.specs.Prelude.{◌≤◌};
    ghost use Rattle.situation_player.specs.ForgedParts.{most_tasks};
    ghost use Rattle.play_command.specs.declared.forged_network.ForgeWords.{ForgeWords};

    ghost Value = { ForgeWords };

    ghost view = { λ forge. forge.words };

    ghost invariant = { λ forge. (1 ≤ forge.words.tasks) × (forge.words.tasks ≤ most_tasks) };
}

impl Request for Forge {
    ghost syntax = { forge_syntax };

    ghost query = { forge_request };

    fn words() -> Syntax<'static> {
        Syntax {
            flags: &[],
            options: &["workers"],
            operands: &["N", "TASKS"],
        }
    }

    fn of(arguments: &Arguments<'_>) -> Option<Forge> {
        let workers = WorkerCount::of(arguments.option(0))?;
        let number = number_given(arguments.operand(0))?;
        let tasks = tasks_given(arguments.operand(1))?;
        let words = ForgeWords { number, tasks };
        Some(Forge { words, workers })
    }

    fn workers_decide_nothing() {}
}

impl NoInput for Forge {
    ghost reported = { PrintsForged };

    fn prints_one() {
        law_at_most_one_earliest();
    }

    fn answer<R: Threads + Sync>(
        self,
        rt: &R,
        alloc: Global,
        answer: &mut Answer,
    ) -> Result<NoInputEnd, AllocError> {
        let net = forge(alloc, self.words.number, self.words.tasks)?;
        push_counts(answer, &net)?;
        let session = OpenSession::open(&self.workers.workers(rt, alloc), net)?;
        print_verdict(rt, alloc, answer, &session)
    }
}

/// The number out of which a network is forged, from 0 to 2147483647, or `None` if there is no
/// word, or it is none.
fn number_given(word: Option<&str>) -> Option<u32>
    ensures { result ≡ number_given (option_map (λ text. text.now) word.entry) }
{
    match word {
        Some(word) => Some(number_within(word.as_bytes(), u64::from(MOST_NUMBER))? as u32),
        None => None,
    }
}

/// The count of tasks, from 1 to 333, or `None` if there is no word, or it is none.
fn tasks_given(word: Option<&str>) -> Option<u32>
    ensures value { result ≡ tasks_given (option_map (λ text. text.now) word.entry) }
    ensures within { IfSome result (λ tasks. (1 ≤ tasks) × (tasks ≤ most_tasks)) }
{
    match word {
        Some(word) => count_within(word.as_bytes(), MOST_TASKS),
        None => None,
    }
}

/// Puts how many points, links and bounds a network has.
fn push_counts(answer: &mut Answer, net: &Network) -> Result<(), AllocError>
    ensures { OnOk result (answer.new.text ≡ answer.old.text ++ counts_text net.now) }
{
    push_count(answer, "points", net.points().len() as u64)?;
    push_count(answer, "links", net.links().len() as u64)?;
    push_count(answer, "bounds", net.bounds().len() as u64)
}

/// Puts a line of a word and a number.
fn push_count(answer: &mut Answer, what: &str, count: u64) -> Result<(), AllocError>
    ensures { OnOk result (answer.new.text ≡ answer.old.text ++ count_line what.now count) }
{
    answer.push_line(&[Word::Text(what), Word::Number(count)])
}

/// Puts the verdict of the network of a session, and what is printed with it.
fn print_verdict<R: Threads + Sync>(
    rt: &R,
    alloc: Global,
    answer: &mut Answer,
    session: &OpenSession,
) -> Result<NoInputEnd, AllocError>
    ensures { IfOk result (λ end. PutsAfter
        (λ more. PrintsVerdict (shown_form session.now.state.net) more end) answer.old.text
        answer.new.text) }
{
    law_controllable_is_shown();
    session.network().sound();
    let certificate = session.certificate(rt, alloc)?;
    match session.dispatch(alloc)? {
        Some(dispatch) => { print_controllable(rt, alloc, answer, session, dispatch, &certificate) }
        None => print_refuted(rt, alloc, answer, session.network(), &certificate),
    }
}

/// Puts that the network of a session is controllable, how many entries its table proof has, the
/// last moment of its longest day, by its dispatchable network, and what the judge says of the
/// proof.
fn print_controllable<R: Threads + Sync>(
    rt: &R,
    alloc: Global,
    answer: &mut Answer,
    session: &OpenSession,
    dispatch: Dispatch,
    certificate: &Certificate,
) -> Result<NoInputEnd, AllocError>
    requires dispatches { IsDispatchOfClosure (shown_form session.now.state.net) dispatch }
    requires proves { Proves (shown_form session.now.state.net) certificate.now }
    ensures { IfOk result (λ end. PutsAfter
        (λ more. PrintsControllable (shown_form session.now.state.net) more end) answer.old.text
        answer.new.text) }
{
    let last = last_moment(alloc, session.shown(), dispatch)?;
    push_controllable(answer, certificate, last)?;
    push_judged(rt, alloc, answer, session.network(), certificate)?;
    Ok(NoInputEnd::Printed)
}

/// Puts that a network is not controllable, how many lines its refutation has, and what the judge
/// says of that.
fn print_refuted<R: Threads + Sync>(
    rt: &R,
    alloc: Global,
    answer: &mut Answer,
    net: &Network,
    certificate: &Certificate,
) -> Result<NoInputEnd, AllocError>
    requires refutes { Refutes (shown_form net.now) certificate.now }
    ensures { IfOk result (λ end. PutsAfter (λ more. PrintsRefuted (shown_form net.now) more end)
        answer.old.text answer.new.text) }
{
    push_refuted(answer, certificate)?;
    push_judged(rt, alloc, answer, net, certificate)?;
    Ok(NoInputEnd::Refuted)
}

fn push_controllable(
    answer: &mut Answer,
    certificate: &Certificate,
    last: u64,
) -> Result<(), AllocError>
    ensures { OnOk result (answer.new.text ≡ answer.old.text ++ controllable_text
        (size_of certificate.now) last) }
{
    answer.push_line(&[Word::Text("controllable")])?;
    push_count(answer, "entries", size_of(certificate) as u64)?;
    push_count(answer, "last", last)
}

fn push_refuted(answer: &mut Answer, certificate: &Certificate) -> Result<(), AllocError>
    ensures { OnOk result (answer.new.text ≡ answer.old.text ++ refuted_text
        (size_of certificate.now)) }
{
    answer.push_line(&[Word::Text("not controllable")])?;
    push_count(answer, "lines", size_of(certificate) as u64)
}

/// The last moment of the longest day of a network without a delay, by the dispatchable network of
/// its closure.
fn last_moment(alloc: Global, net: &Network, dispatch: Dispatch) -> Result<u64, AllocError>
    requires no_delay { net.now.delay ≡ 0 }
    requires dispatches { IsDispatchOfClosure net.now dispatch }
    ensures { IfOk result (IsLastMoment net.now) }
{
    net.sound();
    let longest = WhichSituation::Longest.situation(alloc, net)?;
    let schedule = played(alloc, net, dispatch, &longest)?;
    Ok(greatest_of(schedule.as_slice()))
}

/// The greatest of these moments, or 0 if there are none.
fn greatest_of(moments: &[u64]) -> u64
    ensures { result ≡ greatest_of moments.now }
{
    moments
        .iter()
        .fold(0, |greatest, moment| greatest.max(*moment))
}

/// How many rule lines or entries a certificate has.
fn size_of(certificate: &Certificate) -> usize
    ensures { result ≡ size_of certificate.now }
{
    match certificate {
        Certificate::Refutation { lines, .. } => lines.as_slice().len(),
        Certificate::TableProof { entries, .. } => entries.as_slice().len(),
    }
}

/// Judges a certificate of a network, by its shown form, and puts what the judge says of it.
/// Nothing is required of the certificate, so it is the judge that says it.
fn push_judged<R: Threads + Sync>(
    rt: &R,
    alloc: Global,
    answer: &mut Answer,
    net: &Network,
    certificate: &Certificate,
) -> Result<(), AllocError>
    ensures { OnOk result (answer.new.text ≡ answer.old.text ++ judged_line
        (judgement_of (shown_form net.now) certificate.now)) }
{
    match judge(rt, alloc, net, certificate)? {
        Judgement::Accepted(_) => answer.push_line(&[Word::Text("accepted")]),
        Judgement::Refused { .. } => answer.push_line(&[Word::Text("refused")]),
    }
}
