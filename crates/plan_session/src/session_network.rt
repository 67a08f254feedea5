//! The network of a session with its shown form, and how many workers make the rounds of that.

ghost use Rattle.std.specs.Prelude.{◌≡◌, ◌≤◌, IfOk};
ghost use Rattle.net_model.specs.Network.{IsPlan};
ghost use Rattle.net_model.specs.ShownForm.{shown_form};
ghost use Rattle.work_board.specs.Limits.{most_seats};
ghost use Rattle.plan_session.specs.SessionNetworks.{EditsNetwork};

use net_model::{Edit, EditFault, Network};
use parallel_rounds::Workers;
use std::alloc::{AllocError, Global};
use std::marker::Model;

/// A network with its shown form, and how many workers make the rounds of that. Contracts see it as
/// the network and the number of workers.
#[derive(Debug, Drop)]
pub(crate) struct SessionNetwork {
    stated: Network,
    shown: Network,
    workers: u32,
}

impl Model for SessionNetwork {
    ghost use Rattle.plan_session.specs.SessionNetworks.{IsWithShownForm, NetworkView};
    ghost use Rattle.plan_session.specs.Codes.{network_code};

    ghost Value = { NetworkView };

    ghost coded = { network_code };

    ghost view = { λ network. record { net = network.stated; workers = network.workers } };

    ghost invariant = { λ network. IsWithShownForm network.stated network.shown network.workers };
}

impl SessionNetwork {
    /// That of a network. `AllocError` comes only for want of memory.
    pub(crate) fn of(
        alloc: Global,
        stated: Network,
        workers: u32,
    ) -> Result<SessionNetwork, AllocError>
        requires { (1 ≤ workers) × (workers ≤ most_seats) }
        ensures { IfOk result
            (λ network. network ≡ record { net = stated; workers = workers }) }
    {
        let shown = stated.shown(alloc)?;
        Ok(SessionNetwork {
            stated,
            shown,
            workers,
        })
    }

    /// That of the network that an edit makes, with as many workers, or why the edit is refused.
    /// `OutOfMemory` comes only for want of memory.
    pub(crate) fn edited(&self, alloc: Global, edit: &Edit) -> Result<SessionNetwork, EditFault>
        ensures { EditsNetwork self.now edit.now result }
    {
        let edited = self.stated.apply(alloc, edit)?;
        let shown = edited.shown(alloc)?;
        Ok(SessionNetwork {
            stated: edited,
            shown,
            workers: self.workers,
        })
    }

    /// The network.
    pub(crate) fn stated(&self) -> &Network
        ensures { result.now ≡ self.now.net }
    {
        &self.stated
    }

    /// Its shown form.
    pub(crate) fn shown(&self) -> &Network
        ensures { result.now ≡ shown_form self.now.net }
    {
        &self.shown
    }

    /// Those who make rounds, in these threads and with this memory, and with the gate before each
    /// row.
    pub(crate) fn workers<'a, R, G>(
        &self,
        rt: &'a R,
        alloc: Global,
        gate: &'a G,
    ) -> Workers<'a, R, G>
        ensures { result ≡ self.now.workers }
    {
        Workers::of(rt, alloc, self.workers, gate)
    }

    /// The network is sound. This does nothing: a body calls it if its proof needs the law.
    pub(crate) fn sound(&self)
        ensures { IsPlan self.now.net }
    {
        self.stated.sound();
    }

    /// The network and its shown form.
    pub(crate) fn into_networks(self) -> (Network, Network)
        ensures stated { result.0 ≡ self.net }
        ensures shown { result.1 ≡ shown_form self.net }
    {
        let SessionNetwork { stated, shown, .. } = self;
        (stated, shown)
    }
}
