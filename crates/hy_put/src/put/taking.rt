//! What a put does at an input that is for it.

ghost use Rattle.std.specs.Prelude.{◌≡◌, ◌∷◌, [], ℕ, List, IfOk, IfSome, OnErr, Some, None, true};
ghost use Rattle.hy_record.specs.Stamp.{Timestamp};
ghost use Rattle.hy_record.specs.declared.message.MetaAsk.TheVariants as asks;
ghost use Rattle.hy_record.specs.declared.message.MetaSay.TheVariants as says;
ghost use Rattle.hy_record.specs.declared.turn.Cue.TheVariants as cues;
ghost use Rattle.hy_record.specs.declared.turn.Out.TheVariants as outs;
ghost use Rattle.hy_protocol.specs.Inputs.{is_stored};
ghost use Rattle.hy_put.specs.Contents.{puts_again};
ghost use Rattle.hy_put.specs.Standing.{Takes};
ghost use Rattle.hy_put.specs.declared.state.State.TheVariants as states;

use super::{PutOp, awaits_service};
use crate::state::{State, Storing};
use hy_base::NoMemory;
use hy_operation::{Marks, Progress, stamp_of};
use hy_record::{CloudReply, CloudSay, Cue, MetaSay, Out, Phase, Record, Reply, Turn};
use std::alloc::Global;

impl PutOp {
    /// Takes an input that is for the put.
    pub(super) fn take(&mut self, alloc: Global, cue: &Cue) -> Result<Turn, NoMemory>
        ensures { Takes self.old self.new cue.now result }
    {
        match cue {
            Cue::Tick => self.tick(alloc),
            Cue::Cloud(reply) => self.answered(alloc, reply),
            Cue::Meta(say) => self.heard(alloc, say),
        }
    }

    /// A timeout: what is unanswered is sent again.
    fn tick(&self, alloc: Global) -> Result<Turn, NoMemory>
        ensures { Takes self.now self.now cues.Tick result }
    {
        match &self.state {
            State::Reading => {
                let sends = vec![in alloc; self.issuer.read()]?;
                Ok(Turn::sending(sends))
            }
            State::Storing(storing) => {
                let sends = self.puts_again(alloc, storing)?;
                Ok(Turn::sending(sends))
            }
            State::Updating(rec) => {
                let rec = rec.copy(alloc)?;
                let sends = vec![in alloc; self.issuer.update(rec)]?;
                Ok(Turn::sending(sends))
            }
            State::Replied(_progress) => Ok(Turn::quiet(alloc)),
        }
    }

    /// The fragments that no cloud has acknowledged yet, to each cloud its own.
    fn puts_again(&self, alloc: Global, storing: &Storing) -> Result<Vec<Out>, NoMemory>
        ensures { IfOk result (λ sends. IfSome self.now.content (λ content.
            sends.items ≡ puts_again self.now.issuer content storing.now.stamp storing.now.acked)) }
    {
        match &self.content {
            Some(content) => {
                let n = content.clouds();
                content.puts(alloc, &self.issuer, storing.stamp, n, &storing.acked)
            }
            None => Ok(Vec::new(alloc)),
        }
    }

    /// An answer of the metadata service.
    fn heard(&mut self, alloc: Global, say: &MetaSay) -> Result<Turn, NoMemory>
        ensures { Takes self.old self.new (cues.Meta say.now) result }
    {
        match say {
            MetaSay::Has { rec, .. } => self.told(alloc, rec),
            MetaSay::Applied { .. } => self.served(alloc),
            MetaSay::Kept { .. } => self.served(alloc),
            MetaSay::Fired { .. } => Ok(Turn::quiet(alloc)),
            MetaSay::OldList { .. } => Ok(Turn::quiet(alloc)),
            MetaSay::Forgot { .. } => Ok(Turn::quiet(alloc)),
            MetaSay::Swapped { .. } => Ok(Turn::quiet(alloc)),
            MetaSay::Changed { .. } => Ok(Turn::quiet(alloc)),
        }
    }

    /// The record of the key.
    fn told(&mut self, alloc: Global, rec: &Option<Record>) -> Result<Turn, NoMemory>
        ensures takes { (c o : ℕ) (k : List ℕ) →
            Takes self.old self.new (cues.Meta (says.Has c o k rec.now)) result }
    {
        match &self.state {
            State::Reading => self.begin(alloc, rec),
            State::Storing(_known) => Ok(Turn::quiet(alloc)),
            State::Updating(_known) => Ok(Turn::quiet(alloc)),
            State::Replied(_known) => Ok(Turn::quiet(alloc)),
        }
    }

    /// The first record that is told: the write's timestamp is the next one.
    fn begin(&mut self, alloc: Global, rec: &Option<Record>) -> Result<Turn, NoMemory>
        ensures { (c o : ℕ) (k : List ℕ) → self.old.state ≡ states.Reading →
            Takes self.old self.new (cues.Meta (says.Has c o k rec.now)) result }
    {
        let held = stamp_of(rec);
        let stamp = match held.after(self.issuer.client) {
            Some(stamp) => stamp,
            None => {
                let progress = self.storing_progress(&Marks::none());
                return Ok(self.finish(alloc, Reply::Exhausted(held), progress));
            }
        };
        match &self.content {
            None => {
                let rec = Record::tomb(alloc, stamp)?;
                self.update(alloc, rec)
            }
            Some(content) => {
                let acked = Marks::none();
                let n = content.quorum();
                let sends = content.puts(alloc, &self.issuer, stamp, n, &acked)?;
                self.state = State::Storing(Storing { stamp, acked });
                Ok(Turn::sending(sends))
            }
        }
    }

    /// The record of the key is to be this one.
    fn update(&mut self, alloc: Global, rec: Record) -> Result<Turn, NoMemory>
        ensures turn { let i = self.old.issuer in
            let sent = outs.Meta (asks.Update i.client i.op i.key rec) in
            IfOk result (λ turn. turn ≡ record { sends = sent ∷ []; reply = None }) }
        ensures state { IfOk result (λ _. self.new.state ≡ states.Updating rec) }
        ensures err { OnErr result (self.new.state ≡ self.old.state) }
        ensures issuer { self.new.issuer ≡ self.old.issuer }
        ensures content { self.new.content ≡ self.old.content }
    {
        let sent = rec.copy(alloc)?;
        let sends = vec![in alloc; self.issuer.update(sent)]?;
        self.state = State::Updating(rec);
        Ok(Turn::sending(sends))
    }

    /// The service served the update.
    fn served(&mut self, alloc: Global) -> Result<Turn, NoMemory>
        ensures applied { (c o : ℕ) (k : List ℕ) (s : Timestamp) →
            Takes self.old self.new (cues.Meta (says.Applied c o k s)) result }
        ensures kept { (c o : ℕ) (k : List ℕ) (s : Timestamp) →
            Takes self.old self.new (cues.Meta (says.Kept c o k s)) result }
    {
        match &self.state {
            State::Updating(rec) => {
                let stamp = rec.stamp();
                Ok(self.finish(alloc, Reply::Done(stamp), awaits_service(Phase::Update)))
            }
            State::Reading => Ok(Turn::quiet(alloc)),
            State::Storing(_storing) => Ok(Turn::quiet(alloc)),
            State::Replied(_progress) => Ok(Turn::quiet(alloc)),
        }
    }

    /// The reply comes, where the put is so far.
    fn finish(&mut self, alloc: Global, reply: Reply, progress: Progress) -> Turn
        ensures turn { result ≡ record { sends = []; reply = Some reply } }
        ensures issuer { self.new.issuer ≡ self.old.issuer }
        ensures content { self.new.content ≡ self.old.content }
        ensures state { self.new.state ≡ states.Replied progress }
    {
        self.state = State::Replied(progress);
        Turn::replying(alloc, reply)
    }

    /// An answer of a cloud.
    fn answered(&mut self, alloc: Global, reply: &CloudReply) -> Result<Turn, NoMemory>
        ensures { Takes self.old self.new (cues.Cloud reply.now) result }
    {
        if is_stored(&reply.say) {
            self.stored(alloc, reply)
        } else {
            Ok(Turn::quiet(alloc))
        }
    }

    /// A cloud holds its fragment of this timestamp.
    fn stored(&mut self, alloc: Global, reply: &CloudReply) -> Result<Turn, NoMemory>
        requires { is_stored reply.now.say ≡ true }
        ensures { Takes self.old self.new (cues.Cloud reply.now) result }
    {
        let storing = match &self.state {
            State::Storing(storing) => *storing,
            State::Reading => return Ok(Turn::quiet(alloc)),
            State::Updating(_rec) => return Ok(Turn::quiet(alloc)),
            State::Replied(_progress) => return Ok(Turn::quiet(alloc)),
        };
        if !reply.stamp.is_same(&storing.stamp) {
            return Ok(Turn::quiet(alloc));
        }
        let mut acked = storing.acked;
        acked.mark(reply.cloud);
        match &self.content {
            Some(content) => {
                let n = content.clouds();
                let count = acked.count_below(n);
                if count != content.quorum() {
                    self.state = State::Storing(Storing {
                        stamp: storing.stamp,
                        acked,
                    });
                    return Ok(Turn::quiet(alloc));
                }
                let rec = content.record(alloc, storing.stamp, acked.set_below(n))?;
                self.update(alloc, rec)
            }
            None => Ok(Turn::quiet(alloc)),
        }
    }
}

/// Whether the cloud holds the bytes.
fn is_stored(say: &CloudSay) -> bool
    ensures { result ≡ is_stored say.now }
{
    match say {
        CloudSay::Stored { fresh: _ } => true,
        CloudSay::Conflict => false,
        CloudSay::Body(_bytes) => false,
        CloudSay::Missing => false,
        CloudSay::Gone => false,
        CloudSay::Bad(_code) => false,
    }
}
