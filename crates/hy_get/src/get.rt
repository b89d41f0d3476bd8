//! The machine of a get.

ghost use Rattle.std.specs.Prelude.{◌≡◌, ◌∷◌, [], ℕ, List, IfOk, OnOk, OnErr, Some, min};
ghost use Rattle.hy_record.specs.declared.action.Phase.TheVariants as phases;
ghost use Rattle.hy_record.specs.declared.action.Reply.TheVariants as told;
ghost use Rattle.hy_record.specs.declared.message.MetaSay.TheVariants as says;
ghost use Rattle.hy_record.specs.declared.turn.Cue.{Cue};
ghost use Rattle.hy_record.specs.declared.turn.Cue.TheVariants as cues;
ghost use Rattle.hy_protocol.specs.declared.plan.GetPlan.{GetPlan};
ghost use Rattle.hy_protocol.specs.Operations.{read_plan};
ghost use Rattle.hy_protocol.specs.Turns.{get_turn, get_progress, get_rounds};
ghost use Rattle.hy_operation.specs.Progress.{Tells};
ghost use Rattle.hy_get.specs.declared.get.State.TheVariants as states;
ghost use Rattle.hy_get.specs.Requests.{plan_of};
ghost use Rattle.hy_get.specs.Standing.{StandsForInputs, Takes, Begins, is_newer};

use crate::fetch::{Fetch, Heard};
use crate::requests;
use hy_base::NoMemory;
use hy_operation::{Issuer, Progress, stamp_of};
use hy_protocol::is_for;
use hy_record::{CloudReply, Cue, Key, MetaSay, Out, Phase, Record, Reply, Stamp, Turn};
use std::alloc::Global;

/// What a get awaits.
#[derive(Debug, Drop)]
enum State {
    /// The record.
    Reading,
    /// Valid fragments of the record's value.
    Fetching(Fetch),
    /// Nothing: it has its reply, and was so far then.
    Replied(Progress),
}

/// A get: it stands for the inputs that it was handed.
#[derive(Debug, Drop)]
pub struct GetOp {
    issuer: Issuer,
    /// How often the record was asked for again; at 4,294,967,295 the count stands still.
    rounds: u32,
    state: State,
}

impl GetOp {
    /// A get of the key, as the client's operation of this number, and what it sends first.
    pub fn start(
        alloc: Global,
        client: u32,
        op: u32,
        key: &Key,
    ) -> Result<(GetOp, Vec<Out>), NoMemory>
        ensures stands { IfOk result (λ p. StandsForInputs (read_plan client op key.now) p.0 []) }
        ensures sends { IfOk result (λ p. p.1.items ≡ (get_turn (read_plan client op key.now) []).sends) }
    {
        let issuer = Issuer {
            client,
            op,
            key: *key,
        };
        let sends = requests::read(alloc, &issuer)?;
        let get = GetOp {
            issuer,
            rounds: 0,
            state: State::Reading,
        };
        Ok((get, sends))
    }

    /// Handles an input. One that is not for the get changes nothing, nor does any after the reply.
    pub fn step(&mut self, alloc: Global, cue: &Cue) -> Result<Turn, NoMemory>
        ensures turn { IfOk result (λ turn. (plan : GetPlan) (inputs : List Cue) → StandsForInputs plan self.old inputs → turn ≡ get_turn plan (cue.now ∷ inputs)) }
        ensures ok { OnOk result ((plan : GetPlan) (inputs : List Cue) → StandsForInputs plan self.old inputs → StandsForInputs plan self.new (cue.now ∷ inputs)) }
        ensures err { OnErr result ((plan : GetPlan) (inputs : List Cue) → StandsForInputs plan self.old inputs → StandsForInputs plan self.new inputs) }
    {
        if is_for(cue, self.issuer.client, self.issuer.op, &self.issuer.key) {
            self.take(alloc, cue)
        } else {
            Ok(Turn::quiet(alloc))
        }
    }

    /// How far the get is; from its reply on, how far it was then.
    fn progress(&self) -> Progress
        ensures { (plan : GetPlan) (inputs : List Cue) → StandsForInputs plan self.now inputs → Tells result (get_progress plan inputs) }
    {
        match &self.state {
            State::Reading => Progress {
                phase: Phase::Read,
                have: 0,
                need: 1,
            },
            State::Fetching(fetch) => fetch.progress(),
            State::Replied(progress) => *progress,
        }
    }

    /// What the get awaits; from its reply on, what it awaited then.
    pub fn phase(&self) -> Phase
        ensures { (plan : GetPlan) (inputs : List Cue) → StandsForInputs plan self.now inputs → result ≡ (get_progress plan inputs).phase }
    {
        self.progress().phase
    }

    /// How much of what it awaits the get has.
    pub fn have(&self) -> u32
        ensures { (plan : GetPlan) (inputs : List Cue) → StandsForInputs plan self.now inputs → result ≡ (get_progress plan inputs).have }
    {
        self.progress().have
    }

    /// How much of what it awaits the get needs.
    pub fn need(&self) -> u32
        ensures { (plan : GetPlan) (inputs : List Cue) → StandsForInputs plan self.now inputs → result ≡ (get_progress plan inputs).need }
    {
        self.progress().need
    }

    /// How often the record was asked for again, upon news that it was superseded; at 4,294,967,295 the count stands still.
    pub fn rounds(&self) -> u32
        ensures { (plan : GetPlan) (inputs : List Cue) → StandsForInputs plan self.now inputs → result ≡ min (get_rounds plan inputs) 4294967295 }
    {
        self.rounds
    }

    /// An input that is for the get.
    fn take(&mut self, alloc: Global, cue: &Cue) -> Result<Turn, NoMemory>
        ensures takes { Takes self.old self.new cue.now result }
        ensures issuer { self.new.issuer ≡ self.old.issuer }
    {
        match cue {
            Cue::Tick => self.tick(alloc),
            Cue::Cloud(reply) => self.hear_cloud(alloc, reply),
            Cue::Meta(say) => self.hear_service(alloc, say),
        }
    }

    /// A timeout.
    fn tick(&mut self, alloc: Global) -> Result<Turn, NoMemory>
        ensures takes { Takes self.old self.new cues.Tick result }
        ensures issuer { self.new.issuer ≡ self.old.issuer }
    {
        match &mut self.state {
            State::Reading => {
                let sends = requests::read(alloc, &self.issuer)?;
                Ok(Turn::sending(sends))
            }
            State::Fetching(fetch) => {
                let sends = fetch.tick(alloc, &self.issuer)?;
                Ok(Turn::sending(sends))
            }
            State::Replied(_) => Ok(Turn::quiet(alloc)),
        }
    }

    /// An answer of a cloud.
    fn hear_cloud(&mut self, alloc: Global, reply: &CloudReply) -> Result<Turn, NoMemory>
        ensures takes { Takes self.old self.new (cues.Cloud reply.now) result }
        ensures issuer { self.new.issuer ≡ self.old.issuer }
    {
        match &mut self.state {
            State::Fetching(fetch) => {
                let stamp = fetch.rec.stamp();
                if !reply.stamp.is_same(&stamp) {
                    return Ok(Turn::quiet(alloc));
                }
                match fetch.hear(alloc, &self.issuer, reply)? {
                    Heard::Requests(sends) => Ok(Turn::sending(sends)),
                    Heard::Value(value) => {
                        self.state = State::Replied(fetch.progress());
                        Ok(Turn::replying(alloc, Reply::Value(value, stamp)))
                    }
                }
            }
            State::Reading => Ok(Turn::quiet(alloc)),
            State::Replied(_) => Ok(Turn::quiet(alloc)),
        }
    }

    /// An answer of the metadata service.
    fn hear_service(&mut self, alloc: Global, say: &MetaSay) -> Result<Turn, NoMemory>
        ensures takes { Takes self.old self.new (cues.Meta say.now) result }
        ensures issuer { self.new.issuer ≡ self.old.issuer }
    {
        match say {
            MetaSay::Has { rec, .. } => self.read(alloc, rec),
            MetaSay::Fired { stamp, .. } => self.supersede(alloc, stamp),
            MetaSay::Applied { .. } => Ok(Turn::quiet(alloc)),
            MetaSay::Kept { .. } => Ok(Turn::quiet(alloc)),
            MetaSay::OldList { .. } => Ok(Turn::quiet(alloc)),
            MetaSay::Forgot { .. } => Ok(Turn::quiet(alloc)),
            MetaSay::Swapped { .. } => Ok(Turn::quiet(alloc)),
            MetaSay::Changed { .. } => Ok(Turn::quiet(alloc)),
        }
    }

    /// The key has this record: it is the version to follow, where it is above the one that is followed.
    fn read(&mut self, alloc: Global, rec: &Option<Record>) -> Result<Turn, NoMemory>
        ensures takes { (c o : ℕ) (k : List ℕ) → Takes self.old self.new (cues.Meta (says.Has c o k rec.now)) result }
        ensures issuer { self.new.issuer ≡ self.old.issuer }
    {
        if self.is_newer(rec) {
            self.follow(alloc, rec)
        } else {
            Ok(Turn::quiet(alloc))
        }
    }

    /// Whether the record is above the one that is followed, or none is followed yet.
    fn is_newer(&self, rec: &Option<Record>) -> bool
        ensures { result ≡ is_newer self.now.state rec.now }
    {
        match &self.state {
            State::Reading => true,
            State::Fetching(fetch) => fetch.rec.stamp().is_below(&stamp_of(rec)),
            State::Replied(_) => false,
        }
    }

    /// Follows the record from now on.
    fn follow(&mut self, alloc: Global, rec: &Option<Record>) -> Result<Turn, NoMemory>
        ensures begins { IfOk result (λ turn. Begins (plan_of self.old.issuer) rec.now turn self.new.state) }
        ensures err { OnErr result (self.new.state ≡ self.old.state) }
        ensures issuer { self.new.issuer ≡ self.old.issuer }
        ensures rounds { self.new.rounds ≡ self.old.rounds }
    {
        match rec {
            None => Ok(self.reply_absent(alloc, Stamp::zero())),
            Some(rec) => {
                if rec.is_tomb() {
                    return Ok(self.reply_absent(alloc, rec.known().stamp()));
                }
                let fetch = Fetch::new(alloc, rec)?;
                let sends = fetch.first_gets(alloc, &self.issuer)?;
                self.state = State::Fetching(fetch);
                Ok(Turn::sending(sends))
            }
        }
    }

    /// The key is absent, as of this timestamp.
    fn reply_absent(&mut self, alloc: Global, stamp: Stamp) -> Turn
        ensures turn { result ≡ record { sends = []; reply = Some (told.Absent stamp) } }
        ensures after { self.new ≡ record self.old { state = states.Replied (record { phase = phases.Fetch; have = 0; need = 0 }) } }
    {
        self.state = State::Replied(Progress {
            phase: Phase::Fetch,
            have: 0,
            need: 0,
        });
        Turn::replying(alloc, Reply::Absent(stamp))
    }

    /// The service tells that the record has a timestamp above this one: the record is asked for again, once.
    fn supersede(&mut self, alloc: Global, stamp: &Stamp) -> Result<Turn, NoMemory>
        ensures takes { (c o : ℕ) (k : List ℕ) → Takes self.old self.new (cues.Meta (says.Fired c o k stamp.now)) result }
        ensures issuer { self.new.issuer ≡ self.old.issuer }
    {
        match &mut self.state {
            State::Fetching(fetch) => {
                if !fetch.is_news(stamp) {
                    return Ok(Turn::quiet(alloc));
                }
                let sends = requests::read(alloc, &self.issuer)?;
                fetch.fired = true;
                self.rounds = self.rounds.saturating_add(1);
                Ok(Turn::sending(sends))
            }
            State::Reading => Ok(Turn::quiet(alloc)),
            State::Replied(_) => Ok(Turn::quiet(alloc)),
        }
    }
}
