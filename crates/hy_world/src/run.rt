//! The run of a whole schedule.

ghost use Rattle.std.specs.Prelude.{◌≡◌, ◌≤◌, [], length, All, IfOk};
ghost use Rattle.hy_order.specs.Linearization.{IsReportLinearizable};
ghost use Rattle.hy_record.specs.Clouds.{clouds_of};
ghost use Rattle.hy_sched.specs.Ranges.{IsSchedule};
ghost use Rattle.hy_trace.specs.Hashed.{IsCollisionFree};
ghost use Rattle.hy_trace.specs.Held.{HasLiars};
ghost use Rattle.hy_world.specs.Promises.{KeepsPromises, ListsCurrent};
ghost use Rattle.hy_world.specs.Schedules.{params_of, steps_of_schedule, trace_of_schedule, report_of_schedule};

use crate::world::WorldOver;
use hy_base::NoMemory;
use hy_meta::{Meta, Service};
use hy_order::Report;
use hy_sched::Schedule;
use std::alloc::Global;

/// The report of a schedule: its events are taken one after the other in a store in which nobody
/// joined.
///
/// Where no two strings that were hashed collide, the report is linearizable, with any number of
/// Byzantine clouds. It tells of each current version that has a value; with at most f Byzantine
/// clouds, each is held by at least k honest ones. What a world promises holds after each step.
pub fn replay(alloc: Global, schedule: &Schedule) -> Result<Report, NoMemory>
    requires { IsSchedule schedule.now }
    ensures report { IfOk result (λ report. report ≡ report_of_schedule schedule.now) }
    ensures linearizable { IfOk result (λ report.
        IsCollisionFree (params_of schedule.now.params) (trace_of_schedule schedule.now) →
        IsReportLinearizable report) }
    ensures retrievable { IfOk result (λ report.
        HasLiars (params_of schedule.now.params) schedule.now.params.f → All (λ held.
        schedule.now.params.k ≤ length (clouds_of held.clouds)) report.held) }
    ensures listed { IfOk result (λ report. ListsCurrent (params_of schedule.now.params)
        (trace_of_schedule schedule.now) report.held) }
    ensures promises { IfOk result (λ report.
        KeepsPromises (params_of schedule.now.params) (steps_of_schedule schedule.now)) }
{
    let service = Service::new(alloc)?;
    let report = replay_over(alloc, schedule, service)?;
    Ok(report)
}

/// The same over another metadata service, which served nothing and gave no id.
pub fn replay_over<M: Meta + Drop>(
    alloc: Global,
    schedule: &Schedule,
    service: M,
) -> Result<Report, NoMemory>
    requires schedule { IsSchedule schedule.now }
    requires served { M.served service [] }
    requires given { M.given service ≡ 0 }
    ensures report { IfOk result (λ report. report ≡ report_of_schedule schedule.now) }
    ensures linearizable { IfOk result (λ report.
        IsCollisionFree (params_of schedule.now.params) (trace_of_schedule schedule.now) →
        IsReportLinearizable report) }
    ensures retrievable { IfOk result (λ report.
        HasLiars (params_of schedule.now.params) schedule.now.params.f → All (λ held.
        schedule.now.params.k ≤ length (clouds_of held.clouds)) report.held) }
    ensures listed { IfOk result (λ report. ListsCurrent (params_of schedule.now.params)
        (trace_of_schedule schedule.now) report.held) }
    ensures promises { IfOk result (λ report.
        KeepsPromises (params_of schedule.now.params) (steps_of_schedule schedule.now)) }
{
    let mut world = WorldOver::with(alloc, &schedule.params, service)?;
    for event in schedule.events.items() {
        world.step(alloc, event)?;
    }
    let report = world.report(alloc)?;
    Ok(report)
}
