//! One search for a deadline: the network with the bound of a goal at a number, whether that is a
//! deadline, and the certificate of that.

ghost use Rattle.std.specs.Prelude.{◌≡◌, ◌≤ℤ◌, IfOk};
ghost use Rattle.std.specs.Bool.{Decides};
ghost use Rattle.deadline_search.specs.Answers.{ProvesAt, RefutesAt};
ghost use Rattle.deadline_search.specs.Deadlines.{IsDeadline, lowest, highest};
ghost use Rattle.deadline_search.specs.Goals.{with_goal};
ghost use Rattle.deadline_search.specs.Trials.{IsGoalFor};

use crate::goal::Goal;
use cert_format::Certificate;
use net_model::{Edit, EditFault, Network, Weight};
use parallel_rounds::{Gate, Workers};
use std::alloc::{AllocError, Global};
use std::thread::Threads;
use strategy_model::laws::shown::law_controllable_is_shown;
use verdicts::{certify_by_closure, certify_by_rounds, forward_table_if_controllable};

/// A network, and the goal for whose bound a number is sought.
#[derive(Drop)]
pub(crate) struct Search {
    pub net: Network,
    pub goal: Goal,
}

impl Search {
    /// The network with the bound at a number.
    fn at(&self, alloc: Global, most: Weight) -> Result<Network, AllocError>
        requires goal { IsGoalFor self.now.net self.now.goal }
        requires low { lowest ≤ℤ most }
        requires high { most ≤ℤ highest }
        ensures { IfOk result (λ net. net ≡ with_goal self.now.net self.now.goal most) }
    {
        self.net.sound();
        let goal = &self.goal;
        let from = *self.net.point_name(goal.from);
        let to = *self.net.point_name(goal.to);
        let edit = Edit::AddBound(goal.name, from, to, most);
        match self.net.apply(alloc, &edit) {
            Ok(net) => Ok(net),
            Err(fault) => match fault {
                EditFault::OutOfMemory => Err(AllocError),
                _ => unreachable!(),
            },
        }
    }

    /// Whether a number is a deadline: whether the network with the bound at it is controllable.
    pub fn is_deadline<R: Threads + Sync, G: Gate>(
        &self,
        workers: &Workers<'_, R, G>,
        most: Weight,
    ) -> Result<bool, AllocError>
        requires goal { IsGoalFor self.now.net self.now.goal }
        requires low { lowest ≤ℤ most }
        requires high { most ≤ℤ highest }
        ensures { IfOk result (λ is. Decides is (IsDeadline self.now.net self.now.goal most)) }
    {
        law_controllable_is_shown();
        workers.gate().before(self.goal.to.0);
        let alloc = workers.alloc();
        let net = self.at(alloc, most)?;
        net.sound();
        let shown = net.shown(alloc)?;
        let found = forward_table_if_controllable(workers, &shown)?;
        Ok(found.is_some())
    }

    /// What refutes the network with the bound at a number that is no deadline.
    pub fn refutation<R: Threads + Sync, G: Gate>(
        &self,
        workers: &Workers<'_, R, G>,
        most: Weight,
    ) -> Result<Certificate, AllocError>
        requires goal { IsGoalFor self.now.net self.now.goal }
        requires low { lowest ≤ℤ most }
        requires high { most ≤ℤ highest }
        requires none { ¬ IsDeadline self.now.net self.now.goal most }
        ensures { IfOk result (RefutesAt self.now.net self.now.goal most) }
    {
        law_controllable_is_shown();
        let net = self.at(workers.alloc(), most)?;
        net.sound();
        certify_by_rounds(workers, &net)
    }

    /// What proves the network with the bound at a deadline controllable.
    pub fn proof<R: Threads + Sync, G: Gate>(
        &self,
        workers: &Workers<'_, R, G>,
        most: Weight,
    ) -> Result<Certificate, AllocError>
        requires goal { IsGoalFor self.now.net self.now.goal }
        requires deadline { IsDeadline self.now.net self.now.goal most }
        ensures { IfOk result (ProvesAt self.now.net self.now.goal most) }
    {
        law_controllable_is_shown();
        let net = self.at(workers.alloc(), most)?;
        net.sound();
        certify_by_closure(workers, &net)
    }
}
