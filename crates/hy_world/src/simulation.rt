//! The machines and the log of their steps: what each step does.

ghost use Rattle.std.specs.Prelude.{◌≡◌, ◌+◌, ◌<◌, ◌≤◌, ◌^◌, ◌∷◌, [], ℕ, List, OnOk, IfOk};
ghost use Rattle.hy_base.specs.Shape.{IsShape};
ghost use Rattle.hy_trace.specs.declared.step.Step.{Step};
ghost use Rattle.hy_trace.specs.declared.step.Step.TheVariants as steps;
ghost use Rattle.hy_trace.specs.Deeds.{Params as TraceParams, Deed};
ghost use Rattle.hy_trace.specs.Schedule.{deed_of};
ghost use Rattle.hy_trace.specs.Doing.{goes_on, with_gives, with_do};
ghost use Rattle.hy_record.specs.declared.action.Action.{Action};
ghost use Rattle.hy_sched.specs.declared.event.Event.TheVariants as events;
ghost use Rattle.hy_world.specs.Schedules.{params_of, first_step, steps_with, HasTextValue};
ghost use Rattle.hy_world.specs.Nodes.{HasBegun};
ghost use Rattle.hy_world.specs.World.{Replays, DoesBy};

use crate::copies::copy_of_say;
use crate::machines::Machines;
use hy_base::NoMemory;
use hy_log::{Effects, Log};
use hy_meta::Meta;
use hy_record::CloudReply;
use hy_sched::{Event, Params};
use hy_trace::MAX_GIVES;
use std::alloc::Global;

/// Machines, and the log of the steps that they took.
#[derive(Drop)]
pub(crate) struct Simulation<M> {
    pub(crate) machines: Machines<M>,
    pub(crate) log: Log,
}

impl<M: Meta + Drop> Simulation<M> {
    /// A store of these parameters with this service, in which nobody joined.
    pub(crate) fn new(alloc: Global, params: Params, service: M) -> Result<Simulation<M>, NoMemory>
        requires shape { IsShape params.f params.k }
        requires served { M.served service [] }
        requires given { M.given service ≡ 0 }
        ensures stands { IfOk result (Replays M.served M.given (params_of params) []) }
        ensures steps { IfOk result (λ simulation. simulation.log.steps ≡ 0) }
    {
        let machines = Machines::new(alloc, params, service)?;
        let log = Log::new(alloc);
        Ok(Simulation { machines, log })
    }

    /// An event.
    pub(crate) fn take(&mut self, alloc: Global, event: &Event) -> Result<(), NoMemory>
        requires room { self.old.log.steps + 65537 < 2 ^ 32 }
        requires short { HasTextValue event.now }
        ensures stands { OnOk result ((p : TraceParams) (before : List Step) →
            Replays M.served M.given p before self.old →
            Replays M.served M.given p (steps_with p event.now before) self.new) }
        ensures steps { OnOk result (self.new.log.steps ≤ self.old.log.steps + 65537) }
    {
        match event {
            Event::Do {
                client,
                action: _action,
            } => {
                self.take_do(alloc, *client, event)?;
                Ok(())
            }
            _ => {
                self.take_first(alloc, event)?;
                Ok(())
            }
        }
    }

    /// The first step of an event.
    fn take_first(&mut self, alloc: Global, event: &Event) -> Result<(), NoMemory>
        requires room { self.old.log.steps + 1 < 2 ^ 32 }
        requires short { HasTextValue event.now }
        ensures stands { OnOk result ((p : TraceParams) (before : List Step) →
            Replays M.served M.given p before self.old →
            Replays M.served M.given p (first_step event.now ∷ before) self.new) }
        ensures steps { OnOk result (self.new.log.steps ≡ self.old.log.steps + 1) }
    {
        let effects = effects_of(&mut self.machines, &self.log, alloc, event)?;
        self.log.append(effects)?;
        Ok(())
    }

    /// An operation from its invocation on: each message that is sent from then on is delivered
    /// once, in order, until the reply.
    fn take_do(&mut self, alloc: Global, client: u32, event: &Event) -> Result<(), NoMemory>
        requires room { self.old.log.steps + 65537 < 2 ^ 32 }
        requires short { HasTextValue event.now }
        ensures stands { OnOk result ((action : Action) → event.now ≡ events.Do client action →
            (p : TraceParams) (before : List Step) → Replays M.served M.given p before self.old →
            Replays M.served M.given p (with_do p client action before) self.new) }
        ensures steps { OnOk result (self.new.log.steps ≤ self.old.log.steps + 65537) }
    {
        let first = self.log.posts.len() as u64 + 1;
        let begun = self.log.starts.len();
        self.take_first(alloc, event)?;
        if self.log.starts.len() > begun {
            self.take_gives(alloc, client, first)?;
            return Ok(());
        }
        Ok(())
    }

    /// The message of this number is delivered.
    fn take_give(&mut self, alloc: Global, number: u64) -> Result<(), NoMemory>
        requires { self.old.log.steps + 1 < 2 ^ 32 }
        ensures stands { OnOk result ((p : TraceParams) (before : List Step) →
            Replays M.served M.given p before self.old →
            Replays M.served M.given p (steps.Give number ∷ before) self.new) }
        ensures steps { OnOk result (self.new.log.steps ≡ self.old.log.steps + 1) }
    {
        let effects = give(&mut self.machines, &self.log, alloc, number)?;
        self.log.append(effects)?;
        Ok(())
    }

    /// Delivers messages from this number on, as long as the client's operation awaits its reply.
    fn take_gives(&mut self, alloc: Global, client: u32, first: u64) -> Result<(), NoMemory>
        requires steps { self.old.log.steps + 65536 < 2 ^ 32 }
        requires first { first + 65536 < 2 ^ 64 }
        ensures stands { OnOk result ((p : TraceParams) (before : List Step) →
            HasBegun p client before → Replays M.served M.given p before self.old →
            Replays M.served M.given p (with_gives MAX_GIVES p client first before) self.new) }
        ensures steps { OnOk result (self.new.log.steps ≤ self.old.log.steps + 65536) }
    {
        for i in 0..MAX_GIVES {
            let number = first + i as u64;
            if !self.goes_on(client, number) {
                return Ok(());
            }
            self.take_give(alloc, number)?;
        }
        Ok(())
    }

    /// Whether the last operation of a client that began one has no reply, and a message of this
    /// number was sent.
    fn goes_on(&self, client: u32, number: u64) -> bool
        ensures { (p : TraceParams) (steps : List Step) → HasBegun p client steps →
            Replays M.served M.given p steps self.now → result ≡ goes_on p client number steps }
    {
        let sent = self.log.posts.len() as u64;
        self.machines.nodes.awaits_reply(client) && number <= sent
    }
}

/// What the first step of an event does.
fn effects_of<M: Meta + Drop>(
    machines: &mut Machines<M>,
    log: &Log,
    alloc: Global,
    event: &Event,
) -> Result<Effects, NoMemory>
    requires { HasTextValue event.now }
    ensures { DoesBy M.served M.given log.now (λ p t.
        deed_of p (first_step event.now) t) machines.old machines.new result }
{
    match event {
        Event::Join => machines.join(alloc),
        Event::Do { client, action } => machines.nodes.invoke(alloc, *client, action),
        Event::Invoke { client, action } => machines.nodes.invoke(alloc, *client, action),
        Event::Give { number } => give(machines, log, alloc, *number as u64),
        Event::Lie {
            cloud,
            client,
            op,
            key,
            stamp,
            say,
        } => {
            let say = copy_of_say(alloc, say)?;
            let reply = CloudReply {
                client: *client,
                op: *op,
                cloud: *cloud,
                key: *key,
                stamp: *stamp,
                say,
            };
            machines.nodes.lie(alloc, reply)
        }
        Event::Tick { client } => machines.nodes.tick(alloc, *client),
        Event::Stop { client } => machines.nodes.stop(alloc, *client),
    }
}

/// What the delivery of a message does.
fn give<M: Meta + Drop>(
    machines: &mut Machines<M>,
    log: &Log,
    alloc: Global,
    number: u64,
) -> Result<Effects, NoMemory>
    ensures { DoesBy M.served M.given log.now (λ p t.
        deed_of p (steps.Give number) t) machines.old machines.new result }
{
    match log.posted(number) {
        Some(kept) => machines.deliver(alloc, kept.step(), kept.post()),
        None => machines.nodes.rest(alloc),
    }
}
