//! The run of a schedule that is made of a seed while the store takes its events.

ghost use Rattle.std.specs.Prelude.{◌≡◌, ◌≤◌, [], IfOk, length, count_by};
ghost use Rattle.hy_base.specs.declared.limits.TheConstants.{MAX_MADE};
ghost use Rattle.hy_order.specs.declared.operation.Operation.{Operation};
ghost use Rattle.hy_order.specs.Linearization.{IsReportLinearizable};
ghost use Rattle.hy_trace.specs.Hashed.{IsCollisionFree};
ghost use Rattle.hy_world.specs.Schedules.{params_of, steps_of, trace_of_schedule};
ghost use Rattle.hy_world.specs.World.{StandsForSteps, events_taken};
ghost use Rattle.hy_make.specs.Making.{
  generated_schedule,
  generated_summary,
  has_reply,
  legal_count,
  made_store,
  opening,
};

use crate::drawer::Drawer;
use crate::summary::Summary;
use hy_base::{MAX_MADE, NoMemory};
use hy_meta::{Meta, Service};
use hy_order::{End, History, Report, check};
use hy_sched::{Event, Params};
use hy_world::WorldOver;
use std::alloc::Global;

/// The store: it bears one faulty cloud, keeps values whole, and cloud 0 is Byzantine.
const STORE: Params = Params {
    f: 1,
    k: 1,
    liars: 1,
};

/// The clients that join before the first event is drawn.
const CLIENTS: u32 = 4;

/// What came of the schedule of the seed with so many drawn events.
///
/// Where no two strings that were hashed collide, each order is legal.
pub fn summary_of(alloc: Global, seed: u64, count: u32) -> Result<Summary, NoMemory>
    requires { count ≤ MAX_MADE }
    ensures summary { IfOk result (λ summary. summary ≡ generated_summary seed count) }
    ensures legal { IsCollisionFree (params_of made_store) (trace_of_schedule (generated_schedule seed count)) →
        IfOk result (λ summary. summary.legal ≡ summary.keys) }
{
    let service = Service::new(alloc)?;
    let summary = summary_over(alloc, seed, count, service)?;
    Ok(summary)
}

/// The same over another metadata service, which served nothing and gave no id.
pub fn summary_over<M: Meta + Drop>(
    alloc: Global,
    seed: u64,
    count: u32,
    service: M,
) -> Result<Summary, NoMemory>
    requires count { count ≤ MAX_MADE }
    requires served { M.served service [] }
    requires given { M.given service ≡ 0 }
    ensures summary { IfOk result (λ summary. summary ≡ generated_summary seed count) }
    ensures legal { IsCollisionFree (params_of made_store) (trace_of_schedule (generated_schedule seed count)) →
        IfOk result (λ summary. summary.legal ≡ summary.keys) }
{
    let mut world = opened_world(alloc, service)?;
    let mut drawer = Drawer::of_seed(seed);
    for _ in 0..count {
        let event = drawer.next_event(alloc, world.sent())?;
        world.step(alloc, &event)?;
    }
    let report = world.report(alloc)?;
    let legal = legal_count(alloc, &report)?;
    Ok(Summary {
        events: count,
        steps: world.steps(),
        operations: report.history.items().len() as u64,
        finished: finished_count(&report.history),
        keys: report.orders.items().len() as u64,
        legal,
    })
}

/// A store that four clients joined.
fn opened_world<M: Meta + Drop>(alloc: Global, service: M) -> Result<WorldOver<M>, NoMemory>
    requires served { M.served service [] }
    requires given { M.given service ≡ 0 }
    ensures stands { IfOk result (StandsForSteps M.served M.given (params_of made_store)
        (steps_of (params_of made_store) opening [])) }
    ensures events { IfOk result (λ world. events_taken world ≡ 4) }
{
    let mut world = WorldOver::with(alloc, &STORE, service)?;
    for _ in 0..CLIENTS {
        world.step(alloc, &Event::Join)?;
    }
    Ok(world)
}

/// How many orders of the report are legal.
fn legal_count(alloc: Global, report: &Report) -> Result<u64, NoMemory>
    ensures count { IfOk result (λ count. count ≡ legal_count report.now.history report.now.orders) }
    ensures all { IsReportLinearizable report.now →
        IfOk result (λ count. count ≡ length report.now.orders) }
{
    let mut count = 0;
    for order in report.orders.items() {
        let verdict = check(alloc, &report.history, order)?;
        if verdict.is_legal() {
            count += 1;
        }
    }
    Ok(count)
}

/// How many operations have a reply.
fn finished_count(history: &History) -> u64
    ensures { result ≡ count_by (λ (op : Operation). has_reply op.end) history.now }
{
    history
        .items()
        .iter()
        .filter(|op| has_reply(&op.end))
        .count() as u64
}

/// Whether it is the end of an operation with a reply.
fn has_reply(end: &End) -> bool
    ensures { result ≡ has_reply end.now }
{
    matches!(end, End::Replied { .. })
}
