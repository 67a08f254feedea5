//! The network that is made of three lists and a delay.

ghost use Rattle.std.specs.Prelude.{◌≡◌, IfOk};
ghost use Rattle.net_model.specs.Network.{IsPlan};

use crate::declarations::Declared;
use crate::name::Name;
use crate::network::Network;
use crate::part::{Bound, Link};
use std::alloc::{AllocError, Global};

impl Network {
    /// The network of three lists with the delay of this one. `AllocError` comes only for want of
    /// memory.
    pub(crate) fn of_lists(
        &self,
        alloc: Global,
        points: &[Name],
        bounds: &[Bound],
        links: &[Link],
    ) -> Result<Network, AllocError>
        requires { IsPlan (record {
          points = points.now;
          bounds = bounds.now;
          links = links.now;
          delay = self.now.delay;
        }) }
        ensures { IfOk result (λ net. net ≡ record {
          points = points.now;
          bounds = bounds.now;
          links = links.now;
          delay = self.now.delay;
        }) }
    {
        Declared::of(alloc, self.delay, points, bounds, links)?.network(alloc)
    }

    /// The network of three lists, with a delay of 0. `AllocError` comes only for want of memory.
    pub(crate) fn instant(
        alloc: Global,
        points: &[Name],
        bounds: &[Bound],
        links: &[Link],
    ) -> Result<Network, AllocError>
        requires { IsPlan (record {
          points = points.now;
          bounds = bounds.now;
          links = links.now;
          delay = 0;
        }) }
        ensures { IfOk result (λ net. net ≡ record {
          points = points.now;
          bounds = bounds.now;
          links = links.now;
          delay = 0;
        }) }
    {
        Declared::of(alloc, 0, points, bounds, links)?.network(alloc)
    }
}
