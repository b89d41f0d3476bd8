//! The simulator's calls.

ghost use Rattle.std.specs.Prelude.{◌≡◌, ◌*◌, ◌≤◌, false};

use crate::simulation::Simulation;
use hy_base::NoMemory;
use hy_meta::{Meta, Service};
use hy_order::{Held, History, Report};
use hy_points::PointLog;
use hy_record::Key;
use hy_sched::{Event, Params};
use std::alloc::Global;

/// A store whose clients, service and clouds take the steps of a schedule. It stands for the trace
/// of these steps.
///
/// It is generic over the metadata service. After want of memory it takes no step.
#[derive(Drop)]
pub struct WorldOver<M> {
    simulation: Simulation<M>,
    events: u32,
    is_broken: bool,
    ghost few: { is_broken ≡ false → simulation.log.steps ≤ events * 65537 },
}

/// A world with the first metadata service.
pub type World = WorldOver<Service>;

impl<M: Meta + Drop> WorldOver<M> {
    ghost use Rattle.std.specs.Prelude.{◌+◌, ◌<◌, ◌∷◌, [], ℕ, List, length, IfOk, IfSome, OnOk, OnErr, IsErr};
    ghost use Rattle.hy_base.specs.Shape.{IsShape};
    ghost use Rattle.hy_base.specs.declared.limits.TheConstants.{MAX_EVENTS};
    ghost use Rattle.hy_trace.specs.declared.step.Step.{Step};
    ghost use Rattle.hy_trace.specs.Deeds.{Params as TraceParams};
    ghost use Rattle.hy_trace.specs.Messages.{messages_of};
    ghost use Rattle.hy_trace.specs.Schedule.{trace_of};
    ghost use Rattle.hy_world.specs.Schedules.{params_of, steps_with, HasTextValue};
    ghost use Rattle.hy_record.specs.Clouds.{clouds_of};
    ghost use Rattle.hy_trace.specs.Held.{HasLiars, held_of};
    ghost use Rattle.hy_trace.specs.History.{history_of};
    ghost use Rattle.hy_trace.specs.Report.{report_of};
    ghost use Rattle.hy_log.specs.Points.{points_of};
    ghost use Rattle.hy_log.specs.RunOrders.{OrdersRun};
    ghost use Rattle.hy_points.specs.Atomic.{IsAtomicLog, AsksOnce};
    ghost use Rattle.hy_world.specs.Promises.{KeepsPromises};
    ghost use Rattle.hy_world.specs.World.{StandsForSteps, StandsForSome, IsBroken, events_taken};

    /// A store of these parameters in which nobody joined, with a service that served nothing and
    /// gave no id.
    pub fn with(alloc: Global, params: &Params, service: M) -> Result<WorldOver<M>, NoMemory>
        requires shape { IsShape params.now.f params.now.k }
        requires served { M.served service [] }
        requires given { M.given service ≡ 0 }
        ensures stands { IfOk result (StandsForSteps M.served M.given (params_of params.now) []) }
        ensures events { IfOk result (λ world. events_taken world ≡ 0) }
    {
        let simulation = Simulation::new(alloc, *params, service)?;
        Ok(WorldOver {
            simulation,
            events: 0,
            is_broken: false,
        })
    }

    /// An event, which takes one step; a `Do` takes one, and one for each message that it delivers.
    ///
    /// After want of memory each later event answers that too. The promises hold after each step,
    /// whatever it is.
    pub fn step(&mut self, alloc: Global, event: &Event) -> Result<(), NoMemory>
        requires room { events_taken self.old < MAX_EVENTS }
        requires short { HasTextValue event.now }
        ensures ok { OnOk result ((p : TraceParams) (before : List Step) →
            StandsForSteps M.served M.given p before self.old →
            StandsForSteps M.served M.given p (steps_with p event.now before) self.new) }
        ensures events { OnOk result (events_taken self.new ≡ events_taken self.old + 1) }
        ensures err { OnErr result (IsBroken self.new) }
        ensures broken { IsBroken self.old → IsErr result }
        ensures promises { (p : TraceParams) (steps : List Step) →
            StandsForSteps M.served M.given p steps self.new → KeepsPromises p steps }
    {
        self.advance(alloc, event)
    }

    /// Takes the steps of an event.
    fn advance(&mut self, alloc: Global, event: &Event) -> Result<(), NoMemory>
        requires room { events_taken self.old < MAX_EVENTS }
        requires short { HasTextValue event.now }
        ensures ok { OnOk result ((p : TraceParams) (before : List Step) →
            StandsForSteps M.served M.given p before self.old →
            StandsForSteps M.served M.given p (steps_with p event.now before) self.new) }
        ensures events { OnOk result (events_taken self.new ≡ events_taken self.old + 1) }
        ensures err { OnErr result (IsBroken self.new) }
        ensures broken { IsBroken self.old → IsErr result }
    {
        if self.is_broken {
            return Err(NoMemory);
        }
        match self.simulation.take(alloc, event) {
            Ok(()) => {
                self.events += 1;
                Ok(())
            }
            Err(error) => {
                self.is_broken = true;
                Err(error)
            }
        }
    }

    /// The current version of the key, and the honest clouds of its record's list that hold valid
    /// bytes under its name; none where the key has no record, or that of a deletion.
    pub fn held(&self, key: &Key) -> Option<Held>
        ensures value { (p : TraceParams) (steps : List Step) →
            StandsForSteps M.served M.given p steps self.now →
            result ≡ held_of p (trace_of p steps) key.now }
        ensures enough { (p : TraceParams) (steps : List Step) →
            StandsForSteps M.served M.given p steps self.now → HasLiars p p.f →
            IfSome result (λ held. p.k ≤ length (clouds_of held.clouds)) }
    {
        self.simulation.machines.held(key)
    }

    /// The operations that began, each with its reply or how far it is.
    pub fn history(&self, alloc: Global) -> Result<History, NoMemory>
        requires { StandsForSome M.served M.given self.now }
        ensures { IfOk result (λ history. (p : TraceParams) (steps : List Step) →
            StandsForSteps M.served M.given p steps self.now →
            history ≡ history_of p (trace_of p steps)) }
    {
        let history = self.simulation.history(alloc)?;
        Ok(history)
    }

    /// The moments at which the puts, gets, deletes and swaps began, read, wrote or tried to, and
    /// returned, in the order of their steps: an atomic log in which no operation reads twice, by
    /// which the orders are those of the report.
    pub fn points(&self, alloc: Global) -> Result<PointLog, NoMemory>
        ensures points { IfOk result (λ points. (p : TraceParams) (steps : List Step) →
            StandsForSteps M.served M.given p steps self.now →
            points ≡ points_of p (trace_of p steps)) }
        ensures atomic { IfOk result (λ points. (p : TraceParams) (steps : List Step) →
            StandsForSteps M.served M.given p steps self.now →
            IsAtomicLog points) }
        ensures once { IfOk result (λ points. (p : TraceParams) (steps : List Step) →
            StandsForSteps M.served M.given p steps self.now →
            AsksOnce points) }
        ensures order { IfOk result (λ points. (p : TraceParams) (steps : List Step) →
            StandsForSteps M.served M.given p steps self.now →
            OrdersRun p (trace_of p steps) points) }
    {
        let points = self.simulation.log.points(alloc)?;
        Ok(points)
    }

    /// The history, an order for each key of a put, get, delete or swap, and the copies of the current
    /// versions of these keys.
    pub fn report(&self, alloc: Global) -> Result<Report, NoMemory>
        requires { StandsForSome M.served M.given self.now }
        ensures { IfOk result (λ report. (p : TraceParams) (steps : List Step) →
            StandsForSteps M.served M.given p steps self.now →
            report ≡ report_of p (trace_of p steps)) }
    {
        let report = self.simulation.report(alloc)?;
        Ok(report)
    }

    /// How many messages were sent.
    pub fn sent(&self) -> u64
        ensures { (p : TraceParams) (steps : List Step) →
            StandsForSteps M.served M.given p steps self.now →
            result ≡ length (messages_of p (trace_of p steps)) }
    {
        self.simulation.log.posts.len() as u64
    }

    /// How many steps were taken.
    pub fn steps(&self) -> u64
        ensures { (p : TraceParams) (steps : List Step) →
            StandsForSteps M.served M.given p steps self.now → result ≡ length steps }
    {
        self.simulation.log.steps
    }
}

impl WorldOver<Service> {
    ghost use Rattle.std.specs.Prelude.{[], IfOk};
    ghost use Rattle.hy_base.specs.Shape.{IsShape};
    ghost use Rattle.hy_world.specs.Schedules.{params_of};
    ghost use Rattle.hy_world.specs.World.{StandsForSteps, events_taken};

    /// A store of these parameters in which nobody joined, with the first metadata service.
    pub fn new(alloc: Global, params: &Params) -> Result<WorldOver<Service>, NoMemory>
        requires { IsShape params.now.f params.now.k }
        ensures stands { let meta = ⟦<Service as Meta>⟧ in
            IfOk result (StandsForSteps meta.served meta.given (params_of params.now) []) }
        ensures events { IfOk result (λ world. events_taken world ≡ 0) }
    {
        let service = Service::new(alloc)?;
        let world = WorldOver::with(alloc, params, service)?;
        Ok(world)
    }
}
