//! The lines of a strong schedule.

ghost use Rattle.std.specs.Prelude.{◌≡◌, ◌++◌, slice_get, OnOk, IfOk};
ghost use Rattle.net_model.specs.Network.{IsPoint};
ghost use Rattle.net_model.specs.NetworkParts.{point_name};
ghost use Rattle.strong_command.specs.StrongAnswers.{executable_names, time_line, times_text};

use command_engine::{Answer, Word};
use net_model::{Name, Network, PointId};
use std::alloc::{AllocError, Global};

/// The names of the executable points of a network, in order.
pub(crate) fn executable_names(alloc: Global, net: &Network) -> Result<Vec<Name>, AllocError>
    ensures { IfOk result (λ names. names.items ≡ executable_names net.now) }
{
    let mut names = Vec::new(alloc);
    for k in 0..net.points().len() {
        if !net.is_contingent(PointId(k as u32)) {
            names.push(name_of(net, PointId(k as u32)))?;
        }
    }
    Ok(names)
}

/// The name of a point of the network.
fn name_of(net: &Network, point: PointId) -> Name
    requires { IsPoint net.now point }
    ensures { result ≡ point_name net.now.points point }
{
    net.points()[point.0 as usize]
}

/// Puts a line for each of these points, with its moment.
pub(crate) fn push_times(
    answer: &mut Answer,
    names: &[Name],
    times: &[u64],
) -> Result<(), AllocError>
    ensures { OnOk result (answer.new.text ≡ answer.old.text ++ times_text names.now times.now) }
{
    for (place, name) in names.iter().enumerate() {
        if let Some(time) = time_at(times, place) {
            push_time(answer, name, time)?;
        }
    }
    Ok(())
}

/// The moment at a place.
fn time_at(times: &[u64], place: usize) -> Option<u64>
    ensures { result ≡ slice_get times.now place }
{
    times.get(place).copied()
}

fn push_time(answer: &mut Answer, name: &Name, time: u64) -> Result<(), AllocError>
    ensures { OnOk result (answer.new.text ≡ answer.old.text ++ time_line name.now time) }
{
    answer.push_line(&[
        Word::Text("time"),
        Word::Name(name.bytes()),
        Word::Number(time),
    ])
}
