//! The shown form of a network, read from the network as it is stated, without memory.

ghost use Rattle.std.specs.Prelude.{◌≡◌, ◌<◌, length, slice_get, IfSome};
ghost use Rattle.std.specs.List.{slice_index_or};
ghost use Rattle.net_model.specs.Network.{IsPlan, IsPoint, IsLink, point_named, bound_named};
ghost use Rattle.net_model.specs.Network.{activation};
ghost use Rattle.net_model.specs.NetworkParts.{point_name};
ghost use Rattle.net_model.specs.ShownForm.{shown_form};

use net_model::{Bound, BoundId, Link, LinkId, Name, Network, PointId};
use std::marker::Model;

/// A network as it is shown.
#[derive(Drop)]
pub(crate) struct ShownNetwork<'a> {
    stated: &'a Network,
}

impl<'a> Model for ShownNetwork<'a> {
    ghost use Rattle.net_model.specs.Network.{Plan};
    ghost use Rattle.net_model.specs.ShownForm.{shown_form};

    ghost Value = { Plan };

    ghost view = { λ shown. shown_form shown.stated.now };
}

impl<'a> ShownNetwork<'a> {
    /// The shown form of a network.
    pub(crate) fn of(stated: &'a Network) -> ShownNetwork<'a>
        ensures { result ≡ shown_form stated.now }
    {
        ShownNetwork { stated }
    }

    /// Every network is sound as it is shown. This does nothing: a body calls it if its proof needs
    /// the law.
    pub(crate) fn sound(&self)
        ensures { IsPlan self.now }
    {
        self.stated.sound();
    }

    pub(crate) fn points(&self) -> &'a [Name]
        ensures points { result.now ≡ self.now.points }
        ensures sound { IsPlan self.now }
    {
        self.stated.points()
    }

    pub(crate) fn point_name(&self, point: PointId) -> &'a Name
        requires { IsPoint self.now point }
        ensures { result.now ≡ point_name self.now.points point }
    {
        self.stated.point_name(point)
    }

    pub(crate) fn bound_count(&self) -> usize
        ensures { result ≡ length self.now.bounds }
    {
        self.stated.bounds().len()
    }

    pub(crate) fn link_count(&self) -> usize
        ensures { result ≡ length self.now.links }
    {
        self.stated.links().len()
    }

    pub(crate) fn bound_at(&self, id: BoundId) -> Option<Bound>
        ensures { result ≡ slice_get self.now.bounds id.0 }
    {
        if (id.0 as usize) >= self.bound_count() {
            return None;
        }
        Some(self.bound_numbered(id))
    }

    pub(crate) fn link_at(&self, id: LinkId) -> Option<Link>
        ensures link { result ≡ slice_get self.now.links id.0 }
        ensures sound { IfSome result (IsLink self.now) }
    {
        if (id.0 as usize) >= self.link_count() {
            return None;
        }
        Some(self.link_numbered(id))
    }

    pub(crate) fn bound_numbered(&self, id: BoundId) -> Bound
        requires { id.0 < length self.now.bounds }
        ensures { result ≡ slice_index_or self.now.bounds id.0 result }
    {
        let stated = &self.stated.bounds()[id.0 as usize];
        let edge = self.stated.shown_bound(id);
        Bound {
            most: edge.weight,
            ..*stated
        }
    }

    pub(crate) fn link_numbered(&self, id: LinkId) -> Link
        requires { id.0 < length self.now.links }
        ensures link { result ≡ slice_index_or self.now.links id.0 result }
        ensures sound { IsLink self.now result }
    {
        self.stated.sound();
        self.stated.shown_link(id)
    }

    pub(crate) fn point(&self, name: &[u8]) -> Option<PointId>
        ensures { result ≡ point_named self.now name.now }
    {
        self.stated.point(name)
    }

    pub(crate) fn bound(&self, name: &[u8]) -> Option<BoundId>
        ensures { result ≡ bound_named self.now name.now }
    {
        self.stated.bound(name)
    }

    pub(crate) fn activation(&self, point: PointId) -> Option<LinkId>
        requires { IsPoint self.now point }
        ensures { result ≡ activation self.now point }
    {
        self.stated.activation(point)
    }
}
