//! What is told of a run: its history, an order for each key, and the copies that are held.

ghost use Rattle.std.specs.Prelude.{◌≡◌, ◌++◌, List, map, OnOk, IfOk};
ghost use Rattle.std.specs.List.{filter_map};
ghost use Rattle.std.specs.Option.{option_to_list};
ghost use Rattle.hy_trace.specs.declared.step.Step.{Step};
ghost use Rattle.hy_trace.specs.Deeds.{Params as TraceParams, Deed};
ghost use Rattle.hy_trace.specs.Held.{held_of};
ghost use Rattle.hy_trace.specs.History.{history_of};
ghost use Rattle.hy_trace.specs.Report.{report_of};
ghost use Rattle.hy_trace.specs.Schedule.{trace_of};
ghost use Rattle.hy_world.specs.Machines.{MachinesStand};
ghost use Rattle.hy_world.specs.Reporting.{order_key};
ghost use Rattle.hy_world.specs.World.{Replays, ReplaysSome};

use crate::machines::Machines;
use crate::simulation::Simulation;
use hy_base::NoMemory;
use hy_meta::Meta;
use hy_order::{Held, HeldList, History, Order, Report};
use std::alloc::Global;

impl<M: Meta + Drop> Simulation<M> {
    /// The operations that began, each with its reply or how far it is.
    pub(crate) fn history(&self, alloc: Global) -> Result<History, NoMemory>
        requires { ReplaysSome M.served M.given self.now }
        ensures { IfOk result (λ history. (p : TraceParams) (steps : List Step) →
            Replays M.served M.given p steps self.now → history ≡ history_of p (trace_of p steps)) }
    {
        let running = self.machines.nodes.running(alloc)?;
        let operations = self.log.history(alloc, &running)?;
        Ok(History::of(operations))
    }

    /// The history, an order for each key of a put, get or delete, and the copies of the current
    /// versions of these keys.
    pub(crate) fn report(&self, alloc: Global) -> Result<Report, NoMemory>
        requires { ReplaysSome M.served M.given self.now }
        ensures { IfOk result (λ report. (p : TraceParams) (steps : List Step) →
            Replays M.served M.given p steps self.now → report ≡ report_of p (trace_of p steps)) }
    {
        let history = self.history(alloc)?;
        let orders = self.log.orders(alloc)?;
        let held = self.machines.held_copies(alloc, orders.items())?;
        Ok(Report {
            history,
            orders,
            held: HeldList::of(held),
        })
    }
}

impl<M: Meta + Drop> Machines<M> {
    /// The current versions of the keys of these orders, each with the clouds from which it can be
    /// retrieved.
    pub(crate) fn held_copies(&self, alloc: Global, orders: &[Order]) -> Result<Vec<Held>, NoMemory>
        ensures { IfOk result (λ copies. (p : TraceParams) (t : List Deed) →
            MachinesStand M.served M.given p t self.now →
            copies.items ≡ filter_map (held_of p t) (map order_key orders.now)) }
    {
        let mut copies = Vec::new(alloc);
        for order in orders {
            let held = self.held(&order.key);
            push_held(&mut copies, held)?;
        }
        Ok(copies)
    }
}

/// Adds what is held, if it is.
fn push_held(copies: &mut Vec<Held>, held: Option<Held>) -> Result<(), NoMemory>
    ensures { OnOk result (copies.new.items ≡ copies.old.items ++ option_to_list held) }
{
    if let Some(held) = held {
        copies.push(held)?;
    }
    Ok(())
}
