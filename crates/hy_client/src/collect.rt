//! The machine of a collection.

ghost use Rattle.std.specs.Prelude.{◌≡◌, ◌∷◌, ◌<◌, [], ℕ, List, IfOk, OnOk, OnErr, Ok, true};
ghost use Rattle.hy_base.specs.Shape.{IsShape};
ghost use Rattle.hy_record.specs.Stamp.{Timestamp};
ghost use Rattle.hy_record.specs.declared.message.MetaSay.TheVariants as says;
ghost use Rattle.hy_record.specs.declared.turn.Cue.{Cue};
ghost use Rattle.hy_record.specs.declared.turn.Cue.TheVariants as cues;
ghost use Rattle.hy_protocol.specs.declared.plan.CollectPlan.{CollectPlan};
ghost use Rattle.hy_protocol.specs.Inputs.{is_gone};
ghost use Rattle.hy_protocol.specs.Operations.{collect_plan};
ghost use Rattle.hy_protocol.specs.Turns.{collect_turn, collect_progress_of};
ghost use Rattle.hy_operation.specs.Progress.{Tells};
ghost use Rattle.hy_record.specs.declared.message.MetaAsk.TheVariants as asks;
ghost use Rattle.hy_record.specs.declared.turn.Out.TheVariants as outs;

use crate::deletion::Deletion;
use hy_base::{NoMemory, cloud_count, quorum_size};
use hy_operation::{Issuer, Progress};
use hy_protocol::is_for;
use hy_record::{CloudReply, CloudSay, Cue, Key, MetaSay, Out, Phase, Reply, Stamps, Turn};
use std::alloc::Global;

/// How far a collection is.
#[derive(Debug, Drop)]
pub(crate) enum State {
    /// It awaits the superseded timestamps.
    Asking,
    /// It awaits the clouds that delete.
    Deleting(Deletion),
    /// It awaits the service that forgets these.
    Forgetting(Stamps),
    /// It has its reply: nothing was superseded.
    Empty,
    /// It has its reply: the service forgot.
    Collected,
}

/// A collection of a key's superseded versions: it stands for the inputs that it was handed.
#[derive(Debug, Drop)]
pub struct CollectOp {
    issuer: Issuer,
    /// How many clouds the store has.
    clouds: u8,
    /// In how many of them a version is to be deleted before it is forgotten.
    enough: u8,
    state: State,
}

impl CollectOp {
    ghost use Rattle.hy_client.specs.Collecting.{StandsForInputs, Takes, progress_at};
    ghost use Rattle.hy_client.specs.declared.collect.State.TheVariants as at;

    /// A collection of the key in a store of this shape, and what it sends first.
    pub fn start(
        alloc: Global,
        client: u32,
        op: u32,
        key: &Key,
        f: u8,
        k: u8,
    ) -> Result<(CollectOp, Vec<Out>), NoMemory>
        requires { IsShape f k }
        ensures stands { IfOk result (λ started. StandsForInputs (collect_plan f k client op key.now) started.0 []) }
        ensures sends { IfOk result (λ started. started.1.items ≡ (collect_turn (collect_plan f k client op key.now) []).sends) }
    {
        let issuer = Issuer {
            client,
            op,
            key: *key,
        };
        let sends = vec![in alloc; issuer.olds()]?;
        let collect = CollectOp {
            issuer,
            clouds: cloud_count(f, k),
            enough: quorum_size(f, k),
            state: State::Asking,
        };
        Ok((collect, sends))
    }

    /// Handles an input: what is sent, and the reply where it comes now.
    pub fn step(&mut self, alloc: Global, cue: &Cue) -> Result<Turn, NoMemory>
        ensures turn { IfOk result (λ turn. (plan : CollectPlan) (inputs : List Cue) → StandsForInputs plan self.old inputs
            → turn ≡ collect_turn plan (cue.now ∷ inputs)) }
        ensures ok { OnOk result ((plan : CollectPlan) (inputs : List Cue) → StandsForInputs plan self.old inputs
            → StandsForInputs plan self.new (cue.now ∷ inputs)) }
        ensures err { OnErr result ((plan : CollectPlan) (inputs : List Cue) → StandsForInputs plan self.old inputs → StandsForInputs plan self.new inputs) }
    {
        if is_for(cue, self.issuer.client, self.issuer.op, &self.issuer.key) {
            self.take(alloc, cue)
        } else {
            Ok(Turn::quiet(alloc))
        }
    }

    /// The phase; from the reply on that of the reply's input.
    pub fn phase(&self) -> Phase
        ensures { (plan : CollectPlan) (inputs : List Cue) → StandsForInputs plan self.now inputs → result ≡ (collect_progress_of plan inputs).phase }
    {
        self.progress().phase
    }

    /// How much of what it awaits the collection has.
    pub fn have(&self) -> u32
        ensures { (plan : CollectPlan) (inputs : List Cue) → StandsForInputs plan self.now inputs → result ≡ (collect_progress_of plan inputs).have }
    {
        self.progress().have
    }

    /// How much it needs.
    pub fn need(&self) -> u32
        ensures { (plan : CollectPlan) (inputs : List Cue) → StandsForInputs plan self.now inputs → result ≡ (collect_progress_of plan inputs).need }
    {
        self.progress().need
    }

    /// How far the collection is.
    fn progress(&self) -> Progress
        ensures { Tells result (progress_at self.now.state) }
    {
        let (phase, have, need) = match &self.state {
            State::Asking => (Phase::Olds, 0, 1),
            State::Deleting(deletion) => (Phase::Drop, deletion.have(), deletion.need()),
            State::Forgetting(_stamps) => (Phase::Forget, 0, 1),
            State::Empty => (Phase::Drop, 0, 0),
            State::Collected => (Phase::Forget, 0, 1),
        };
        Progress { phase, have, need }
    }

    /// An input that is for the collection.
    fn take(&mut self, alloc: Global, cue: &Cue) -> Result<Turn, NoMemory>
        ensures { Takes self.old self.new cue.now result }
    {
        match cue {
            Cue::Tick => self.tick(alloc),
            Cue::Cloud(reply) => self.answered(alloc, reply),
            Cue::Meta(say) => self.told(alloc, say),
        }
    }

    /// A timeout: what is unanswered is sent again.
    fn tick(&self, alloc: Global) -> Result<Turn, NoMemory>
        ensures { Takes self.now self.now cues.Tick result }
    {
        match &self.state {
            State::Asking => {
                let sends = vec![in alloc; self.issuer.olds()]?;
                Ok(Turn::sending(sends))
            }
            State::Deleting(deletion) => {
                let sends = deletion.deletes(alloc, &self.issuer, self.clouds)?;
                Ok(Turn::sending(sends))
            }
            State::Forgetting(stamps) => {
                let sends = self.forgets(alloc, stamps)?;
                Ok(Turn::sending(sends))
            }
            State::Empty => Ok(Turn::quiet(alloc)),
            State::Collected => Ok(Turn::quiet(alloc)),
        }
    }

    /// A request to forget these timestamps.
    fn forgets(&self, alloc: Global, stamps: &Stamps) -> Result<Vec<Out>, NoMemory>
        ensures { IfOk result (λ sends. sends.items ≡ outs.Meta (asks.Forget self.now.issuer.client self.now.issuer.op self.now.issuer.key stamps.now) ∷ []) }
    {
        let copy = Stamps::of(stamps.items().to_vec(alloc)?);
        Ok(vec![in alloc; self.issuer.forget(copy)]?)
    }

    /// An answer of a cloud.
    fn answered(&mut self, alloc: Global, reply: &CloudReply) -> Result<Turn, NoMemory>
        ensures { Takes self.old self.new (cues.Cloud reply.now) result }
    {
        if reply.cloud < self.clouds && is_gone(&reply.say) {
            self.gone(alloc, reply)
        } else {
            Ok(Turn::quiet(alloc))
        }
    }

    /// A cloud of the store acknowledged a deletion.
    fn gone(&mut self, alloc: Global, reply: &CloudReply) -> Result<Turn, NoMemory>
        requires cloud { reply.now.cloud < self.old.clouds }
        requires gone { is_gone reply.now.say ≡ true }
        ensures { Takes self.old self.new (cues.Cloud reply.now) result }
    {
        match &mut self.state {
            State::Deleting(deletion) => match deletion.gone(alloc, reply)? {
                Some(stamps) => {
                    let sends = self.forgets(alloc, &stamps)?;
                    self.state = State::Forgetting(stamps);
                    Ok(Turn::sending(sends))
                }
                None => Ok(Turn::quiet(alloc)),
            },
            _ => Ok(Turn::quiet(alloc)),
        }
    }

    /// An answer of the metadata service.
    fn told(&mut self, alloc: Global, say: &MetaSay) -> Result<Turn, NoMemory>
        ensures { Takes self.old self.new (cues.Meta say.now) result }
    {
        match say {
            MetaSay::OldList { stamps, .. } => self.listed(alloc, stamps),
            MetaSay::Forgot { .. } => Ok(self.forgot(alloc)),
            _ => Ok(Turn::quiet(alloc)),
        }
    }

    /// The superseded timestamps.
    fn listed(&mut self, alloc: Global, stamps: &Stamps) -> Result<Turn, NoMemory>
        ensures { (c o : ℕ) (k : List ℕ) → Takes self.old self.new (cues.Meta (says.OldList c o k stamps.now)) result }
    {
        match &self.state {
            State::Asking => self.begin(alloc, stamps),
            _ => Ok(Turn::quiet(alloc)),
        }
    }

    /// The first list of superseded timestamps.
    fn begin(&mut self, alloc: Global, stamps: &Stamps) -> Result<Turn, NoMemory>
        ensures { (c o : ℕ) (k : List ℕ) → self.old.state ≡ at.Asking → Takes self.old self.new (cues.Meta (says.OldList c o k stamps.now)) result }
    {
        if stamps.items().is_empty() {
            self.state = State::Empty;
            return Ok(Turn::replying(alloc, Reply::Collected(0)));
        }
        let deletion = Deletion::of(alloc, stamps, self.enough)?;
        let sends = deletion.deletes(alloc, &self.issuer, self.clouds)?;
        self.state = State::Deleting(deletion);
        Ok(Turn::sending(sends))
    }

    /// The service forgot the timestamps.
    fn forgot(&mut self, alloc: Global) -> Turn
        ensures { (c o : ℕ) (k : List ℕ) → Takes self.old self.new (cues.Meta (says.Forgot c o k)) (Ok result) }
    {
        match &self.state {
            State::Forgetting(stamps) => {
                let count = stamps.items().len() as u32;
                self.state = State::Collected;
                Turn::replying(alloc, Reply::Collected(count))
            }
            _ => Turn::quiet(alloc),
        }
    }
}

/// Whether the cloud holds nothing any more.
fn is_gone(say: &CloudSay) -> bool
    ensures { result ≡ is_gone say.now }
{
    match say {
        CloudSay::Gone => true,
        CloudSay::Stored { fresh: _ } => false,
        CloudSay::Conflict => false,
        CloudSay::Body(_bytes) => false,
        CloudSay::Missing => false,
        CloudSay::Bad(_code) => false,
    }
}
