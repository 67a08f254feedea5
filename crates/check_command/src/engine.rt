//! The engine by which a network is decided.

ghost use Rattle.std.specs.Prelude.{◌≡◌, ◌≤◌, option_map, IfOk};
ghost use Rattle.cell_table.specs.Limits.{key_count, most_keys};
ghost use Rattle.check_command.specs.Engines.{engine_given, engine_of, engine_tests, takes};
ghost use Rattle.check_command.specs.Engines.{reported_line};
ghost use Rattle.verdicts.specs.Decisions.{IsOrderedClosure};
ghost use Rattle.verdicts.specs.Verdict.{IsRefutedBy, IsVerdictBy};

use cell_table::fits;
use cert_format::Certificate;
use command_engine::Test;
use common_answers::Fault;
use input_texts::{Notation, PlanNetwork};
use net_model::Network;
use network_closure::Closed;
use parallel_rounds::{NoGate, Workers};
use std::alloc::{AllocError, Global};
use std::marker::Model;
use std::thread::Threads;
use verdicts::{Verdict, decide, decide_by_cells, decide_by_closure};

/// The engine by which a network is decided. Both come to the same verdict, and a refutation is
/// made of rounds by either. No clause says which of them works.
#[derive(Clone, Copy, Debug, PartialEq, Eq)]
pub enum Engine {
    /// A table is closed by one worker, and tested by all: a forward closed one, or the closure if a
    /// proof is wanted.
    Rounds,
    /// The closure is made by all workers at once, in shared cells, which hold 1,000,000 keys:
    /// points times (points + links).
    Cells,
}

impl Engine {
    /// The engine that the value of the option `--engine` names, or that of rounds if it is not
    /// given; `None` if the value is neither `rounds` nor `cells`.
    pub fn given(value: Option<&str>) -> Option<Engine>
        ensures { result ≡ engine_given (option_map (λ text. text.now) value.entry) }
    {
        match value {
            None => Some(Engine::Rounds),
            Some(word) => Engine::of(word),
        }
    }

    fn of(word: &str) -> Option<Engine>
        ensures { result ≡ engine_of word.now }
    {
        match word {
            "rounds" => Some(Engine::Rounds),
            "cells" => Some(Engine::Cells),
            _ => None,
        }
    }

    /// Whether it takes a network: that of cells takes one whose keys cells hold, that of rounds
    /// any.
    fn takes(self, net: &Network) -> bool
        ensures { result ≡ takes self net.now }
    {
        match self {
            Engine::Rounds => true,
            Engine::Cells => fits(net),
        }
    }
}

/// Whether an engine takes the network of a plan in this notation. As a test it refuses one that
/// has more keys than cells hold, if these are the engine: by the number of the line that ends the
/// plan, or of a document by 0.
#[derive(Clone, Copy, Debug, PartialEq, Eq)]
pub struct EngineTest {
    pub engine: Engine,
    pub notation: Notation,
}

impl Test<PlanNetwork, Fault> for EngineTest {
    type Value = EnginePlan;

    ghost tests = { engine_tests };

    fn test(
        &self,
        _alloc: Global,
        value: PlanNetwork,
        number: u32,
    ) -> Result<Result<EnginePlan, Fault>, AllocError> {
        let engine = self.engine;
        let net = value.into_network();
        if engine.takes(&net) {
            Ok(Ok(EnginePlan { net, engine }))
        } else {
            Ok(Err(Fault::Cells(reported_line(self.notation, number))))
        }
    }
}

fn reported_line(notation: Notation, number: u32) -> u32
    ensures { result ≡ reported_line notation number }
{
    match notation {
        Notation::Text => number,
        Notation::Json => 0,
    }
}

/// The network of a plan, and an engine that takes it. Contracts see it as the network: the engine
/// decides nothing of what is put.
#[derive(Debug, Drop)]
pub struct EnginePlan {
    net: Network,
    engine: Engine,
}

impl Model for EnginePlan {
    ghost use Rattle.std.specs.Prelude.{◌≡◌, true};
    ghost use Rattle.net_model.specs.Network.{Plan};
    ghost use Rattle.check_command.specs.Engines.{takes};

    ghost Value = { Plan };

    ghost view = { λ kept. kept.net };

    ghost invariant = { λ kept. takes kept.engine kept.net ≡ true };
}

impl EnginePlan {
    /// The certificate that refutes the network, unless it is controllable, by its engine and these
    /// workers. `AllocError` comes only for want of memory.
    pub fn refutation<R: Threads + Sync>(
        self,
        workers: &Workers<'_, R, NoGate>,
    ) -> Result<Option<Certificate>, AllocError>
        ensures { IfOk result (IsRefutedBy self) }
    {
        let EnginePlan { net, engine } = self;
        match engine {
            Engine::Rounds => refutation_by_rounds(workers, net),
            Engine::Cells => refutation_by_cells(workers, net),
        }
    }

    /// Decides whether the network is controllable by its closure, which proves it so, as its
    /// engine and these workers make it. `AllocError` comes only for want of memory.
    pub fn decide_by_closure<R: Threads + Sync>(
        self,
        workers: &Workers<'_, R, NoGate>,
    ) -> Result<Verdict<Closed>, AllocError>
        ensures { IfOk result (IsVerdictBy IsOrderedClosure self) }
    {
        let EnginePlan { net, engine } = self;
        match engine {
            Engine::Rounds => decide_by_closure(workers, net),
            Engine::Cells => decide_by_cells(workers, net),
        }
    }
}

/// The certificate that refutes a network, unless it has a forward closed table with an order.
fn refutation_by_rounds<R: Threads + Sync>(
    workers: &Workers<'_, R, NoGate>,
    net: Network,
) -> Result<Option<Certificate>, AllocError>
    ensures { IfOk result (IsRefutedBy net) }
{
    let verdict = decide(workers, net)?;
    Ok(verdict.refutation())
}

/// The certificate that refutes a network whose keys shared cells hold, unless its closure, made in
/// these, has an order.
fn refutation_by_cells<R: Threads + Sync>(
    workers: &Workers<'_, R, NoGate>,
    net: Network,
) -> Result<Option<Certificate>, AllocError>
    requires { key_count net ≤ most_keys }
    ensures { IfOk result (IsRefutedBy net) }
{
    let verdict = decide_by_cells(workers, net)?;
    Ok(verdict.refutation())
}
