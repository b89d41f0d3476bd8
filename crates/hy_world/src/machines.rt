//! The metadata service, with the clients and clouds that talk to it.

ghost use Rattle.std.specs.Prelude.{◌≡◌, ◌∷◌, ◌<◌, ◌+◌, ◌^◌, [], ℕ, List, length, IfOk, Some};
ghost use Rattle.hy_base.specs.Shape.{IsShape};
ghost use Rattle.hy_trace.specs.declared.step.Step.TheVariants as steps;
ghost use Rattle.hy_trace.specs.Deeds.{Params as TraceParams, Deed, Served};
ghost use Rattle.hy_trace.specs.Messages.{Message};
ghost use Rattle.hy_trace.specs.Schedule.{delivery, deed_of};
ghost use Rattle.hy_trace.specs.Trace.{IsTrace};
ghost use Rattle.hy_record.specs.declared.message.MetaAsk.{MetaAsk};
ghost use Rattle.hy_meta.specs.Service.{record_stamp};
ghost use Rattle.hy_world.specs.Schedules.{params_of};
ghost use Rattle.hy_log.specs.Effects.{post_of, updated_by, answered_swap, found_by, is_swapped};
ghost use Rattle.hy_meta.specs.Meta.{service_answers};
ghost use Rattle.hy_log.specs.Kept.{post_in};
ghost use Rattle.hy_trace.specs.Held.{held_of, held_with};
ghost use Rattle.hy_world.specs.Nodes.{addressee, NodesStand};
ghost use Rattle.hy_world.specs.Machines.{MachinesStand, MachinesDo, plain_update};

use crate::nodes::Nodes;
use hy_base::NoMemory;
use hy_log::{Effects, KeptPost, Updated, posts_of_says};
use hy_meta::Meta;
use hy_order::Held;
use hy_record::{Cue, Key, MetaAsk, MetaSay, Record, Stamp};
use hy_sched::Params;
use std::alloc::Global;

/// The machines of a store.
#[derive(Drop)]
pub(crate) struct Machines<M> {
    pub(crate) service: M,
    pub(crate) nodes: Nodes,
}

impl<M: Meta + Drop> Machines<M> {
    /// A service that served nothing, clouds that hold nothing, and no client.
    pub(crate) fn new(alloc: Global, params: Params, service: M) -> Result<Machines<M>, NoMemory>
        requires shape { IsShape params.f params.k }
        requires served { M.served service [] }
        requires given { M.given service ≡ 0 }
        ensures { IfOk result (MachinesStand M.served M.given (params_of params) []) }
    {
        let nodes = Nodes::new(alloc, params)?;
        Ok(Machines { service, nodes })
    }

    /// The next client joins.
    pub(crate) fn join(&mut self, alloc: Global) -> Result<Effects, NoMemory>
        ensures { MachinesDo M.served M.given (λ p t.
            deed_of p steps.Join t) self.old self.new result }
    {
        match self.service.join() {
            Ok(number) => {
                self.nodes.add(number)?;
                Ok(Effects::none(alloc))
            }
            Err(_full) => Ok(Effects::none(alloc)),
        }
    }

    /// A message is delivered, which was sent at this step.
    pub(crate) fn deliver(
        &mut self,
        alloc: Global,
        made: u64,
        post: &KeptPost,
    ) -> Result<Effects, NoMemory>
        ensures { (message : Message) → post_of message ≡ post_in post.now →
            MachinesDo M.served M.given (λ p t.
            delivery p t made (Some message)) self.old self.new result }
    {
        match post {
            KeptPost::Ask(ask) => self.serve(alloc, ask),
            KeptPost::Request(request) => {
                let ask = request.ask(alloc)?;
                self.nodes.grant(alloc, &ask)
            }
            KeptPost::Answer(cue) => self.nodes.hand(alloc, client_of(cue), made, cue),
        }
    }

    /// The service serves a request.
    fn serve(&mut self, alloc: Global, ask: &MetaAsk) -> Result<Effects, NoMemory>
        ensures { MachinesDo M.served M.given (λ p t. Served ask.now) self.old self.new result }
    {
        let attempted = self.attempted_by(ask);
        let says = self.service.serve(alloc, ask)?;
        let updated = updated_by(ask, attempted, &says);
        let posts = posts_of_says(alloc, says)?;
        Ok(Effects {
            posts,
            began: None,
            returned: None,
            heard: None,
            updated,
        })
    }

    /// The current version of the key, where that has a value, and the clouds from which it can be
    /// retrieved.
    pub(crate) fn held(&self, key: &Key) -> Option<Held>
        ensures { (p : TraceParams) (t : List Deed) → MachinesStand M.served M.given p t self.now →
            result ≡ held_of p t key.now }
    {
        match self.service.current(key) {
            Some(rec) => held_by(&self.nodes, key, rec),
            None => None,
        }
    }

    /// Which operation's update the request is, and whether the service will apply it.
    #[tactic(auto, unfolding(hy_meta::specs::Service::record_stamp))]
    fn attempted_by(&self, ask: &MetaAsk) -> Option<Updated>
        ensures { (asks : List MetaAsk) → M.served self.now.service asks →
            result ≡ plain_update ask.now asks }
    {
        match ask {
            MetaAsk::Update {
                client,
                op,
                key,
                rec,
            } => {
                let held = self.stamp_of(key);
                Some(Updated {
                    client: *client,
                    op: *op,
                    is_applied: held.is_below(&rec.stamp()),
                    found: held,
                })
            }
            MetaAsk::Read { .. } => None,
            MetaAsk::Watch { .. } => None,
            MetaAsk::Olds { .. } => None,
            MetaAsk::Forget { .. } => None,
            MetaAsk::Swap { .. } => None,
        }
    }

    /// The timestamp of the key's record; (0, 0) where there is none.
    #[tactic(auto, unfolding(hy_meta::specs::Service::record_stamp))]
    fn stamp_of(&self, key: &Key) -> Stamp
        ensures { (asks : List MetaAsk) → M.served self.now.service asks →
            result ≡ record_stamp asks key.now }
    {
        match self.service.current(key) {
            Some(rec) => rec.stamp(),
            None => Stamp::zero(),
        }
    }
}

/// Which operation's update or swap was served, by what the update will do and by the answers.
fn updated_by(ask: &MetaAsk, attempted: Option<Updated>, says: &[MetaSay]) -> Option<Updated>
    ensures { (asks : List MetaAsk) → attempted ≡ plain_update ask.now asks →
        says.now ≡ service_answers asks ask.now → result ≡ updated_by ask.now asks }
{
    match ask {
        MetaAsk::Swap {
            client,
            op,
            expected,
            ..
        } => answered_swap(*client, *op, expected, says),
        _ => attempted,
    }
}

/// A swap that is answered so.
fn answered_swap(client: u32, op: u32, expected: &Stamp, says: &[MetaSay]) -> Option<Updated>
    ensures { result ≡ answered_swap client op expected.now says.now }
{
    match says.first() {
        Some(say) => Some(Updated {
            client,
            op,
            is_applied: is_swapped(say),
            found: found_by(expected, say),
        }),
        None => None,
    }
}

/// What a swap that expects this timestamp found, by the answer to it.
fn found_by(expected: &Stamp, say: &MetaSay) -> Stamp
    ensures { result ≡ found_by expected.now say.now }
{
    match say {
        MetaSay::Changed { stamp, .. } => *stamp,
        _ => *expected,
    }
}

/// Whether the answer is that a swap was applied.
fn is_swapped(say: &MetaSay) -> bool
    ensures { result ≡ is_swapped say.now }
{
    matches!(say, MetaSay::Swapped { .. })
}

/// Whom an input goes to; 0 where it says nobody.
fn client_of(cue: &Cue) -> u32
    ensures { result ≡ addressee cue.now }
{
    match cue {
        Cue::Meta(say) => match say {
            MetaSay::Has { client, .. } => *client,
            MetaSay::Applied { client, .. } => *client,
            MetaSay::Kept { client, .. } => *client,
            MetaSay::Fired { client, .. } => *client,
            MetaSay::OldList { client, .. } => *client,
            MetaSay::Forgot { client, .. } => *client,
            MetaSay::Swapped { client, .. } => *client,
            MetaSay::Changed { client, .. } => *client,
        },
        Cue::Cloud(reply) => reply.client,
        Cue::Tick => 0,
    }
}

/// The version of the key's record, where that is no deletion's, and the clouds from which it can
/// be retrieved.
fn held_by(nodes: &Nodes, key: &Key, rec: &Record) -> Option<Held>
    ensures { (p : TraceParams) (t : List Deed) → NodesStand p t nodes.now →
        result ≡ held_with p t key.now (Some rec.now) }
{
    if rec.is_tomb() {
        return None;
    }
    Some(Held {
        key: *key,
        stamp: rec.stamp(),
        clouds: nodes.holders(key, rec),
    })
}
