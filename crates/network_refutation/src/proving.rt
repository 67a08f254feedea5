//! The table proof of a network without a delay, by its closure.

ghost use Rattle.std.specs.Prelude.{◌≡◌, IfOk};
ghost use Rattle.closure_model.specs.Closure.{IsClosure};
ghost use Rattle.closure_model.specs.Orders.{IsOrder, placed_points};
ghost use Rattle.closure_certificates.specs.Certified.{Proves};

use cert_format::Certificate;
use closure_certificates::laws::law_table_proofs_prove;
use closure_certificates::table_proof;
use closure_laws::laws::law_ordered_closures_are_controllable;
use labelled_graph::Table;
use net_model::{Network, PointId};
use std::alloc::{AllocError, Global};

/// The certificate that proves a network without a delay controllable, by its closure and the order
/// in which the points of that are placed. `AllocError` comes only for want of memory.
pub fn prove(
    alloc: Global,
    net: &Network,
    table: &Table,
    order: &[PointId],
) -> Result<Certificate, AllocError>
    requires no_delay { net.now.delay ≡ 0 }
    requires closure { IsClosure net.now table.now }
    requires order { IsOrder table.now order.now }
    requires placed { order.now ≡ placed_points table.now }
    ensures { IfOk result (Proves net.now) }
{
    law_ordered_closures_are_controllable();
    law_table_proofs_prove();
    net.sound();
    table_proof(alloc, net, table, order)
}
