//! The network that an input declares.

use net_model::{Network, Weight};
use std::marker::Model;

/// The network that an input declares. Contracts see it as the network; its numbers are those that
/// a plan may have.
#[derive(Debug, Drop)]
pub struct PlanNetwork {
    net: Network,
}

impl Model for PlanNetwork {
    ghost use Rattle.net_model.specs.Network.{Plan, HasPlanNumbers};

    ghost Value = { Plan };

    ghost view = { λ kept. kept.net };

    ghost invariant = { λ kept. HasPlanNumbers kept.net };
}

impl PlanNetwork {
    ghost use Rattle.std.specs.Prelude.{◌≡◌, ◌≤◌};
    ghost use Rattle.net_model.specs.Limits.{most_delay};
    ghost use Rattle.net_model.specs.Network.{HasPlanNumbers};

    /// A network whose numbers are those that a plan may have.
    pub fn new(net: Network) -> PlanNetwork
        requires { HasPlanNumbers net }
        ensures { result ≡ net }
    {
        PlanNetwork { net }
    }

    /// The same network with a delay of so many moments, 0 to 1,000,000.
    pub fn with_delay(self, moments: u32) -> PlanNetwork
        requires { moments ≤ most_delay }
        ensures { result ≡ record self { delay = moments } }
    {
        PlanNetwork {
            net: self.net.with_delay(Weight::from(moments)),
        }
    }

    /// The network.
    pub fn network(&self) -> &Network
        ensures same { result.now ≡ self.now }
        ensures numbers { HasPlanNumbers self.now }
    {
        &self.net
    }

    /// The network, for whom owns it.
    pub fn into_network(self) -> Network
        ensures same { result ≡ self }
        ensures numbers { HasPlanNumbers self }
    {
        let PlanNetwork { net } = self;
        net
    }
}
