//! The machine of a put and of a delete.

ghost use Rattle.std.specs.Prelude.{◌≡◌, ◌∷◌, ◌<◌, ◌≤◌, [], List, IfOk, IfErr, OnOk, OnErr, None};
ghost use Rattle.hy_base.specs.Shape.{IsShape};
ghost use Rattle.hy_record.specs.declared.turn.Cue.{Cue};
ghost use Rattle.hy_protocol.specs.declared.plan.PutPlan.{PutPlan};
ghost use Rattle.hy_protocol.specs.Turns.{put_turn, put_progress};

use crate::content::Content;
use crate::fault::StartFault;
use crate::state::State;
use hy_base::NoMemory;
use hy_operation::{Issuer, Marks, Progress};
use hy_protocol::{PutPlan, is_for};
use hy_record::{Cue, Out, Phase, Turn};
use std::alloc::Global;

mod taking;

/// A put or a delete.
#[derive(Debug, Drop)]
pub struct PutOp {
    issuer: Issuer,
    /// What is stored; none for a delete.
    content: Option<Content>,
    state: State,
    ghost known: { 0 < issuer.client },
}

impl PutOp {
    ghost use Rattle.hy_put.specs.Sizes.{oversize, size_told};
    ghost use Rattle.hy_put.specs.Standing.{StandsForInputs};
    ghost use Rattle.hy_put.specs.Contents.{storing_progress};
    ghost use Rattle.hy_operation.specs.Progress.{Tells};

    /// The put or delete of a plan, and what it sends first.
    pub fn start(alloc: Global, plan: &PutPlan) -> Result<(PutOp, Vec<Out>), StartFault>
        requires shape { IsShape plan.now.f plan.now.k }
        requires client { 1 ≤ plan.now.client }
        ensures stands { IfOk result (λ p. StandsForInputs plan.now p.0 []) }
        ensures sends { IfOk result (λ p. p.1.items ≡ (put_turn plan.now []).sends) }
        ensures fits { OnOk result (oversize plan.now ≡ None) }
        ensures fault { IfErr result (λ fault. size_told fault ≡ oversize plan.now) }
    {
        let content = Content::of(alloc, plan)?;
        let issuer = Issuer {
            client: plan.client,
            op: plan.op,
            key: plan.key,
        };
        let sends = vec![in alloc; issuer.read()]?;
        let put = PutOp {
            issuer,
            content,
            state: State::Reading,
        };
        Ok((put, sends))
    }

    /// Takes an input: what is sent, and the reply where it comes now.
    pub fn step(&mut self, alloc: Global, cue: &Cue) -> Result<Turn, NoMemory>
        ensures turn { IfOk result (λ turn. (plan : PutPlan) (inputs : List Cue) →
            StandsForInputs plan self.old inputs → turn ≡ put_turn plan (cue.now ∷ inputs)) }
        ensures ok { OnOk result ((plan : PutPlan) (inputs : List Cue) →
            StandsForInputs plan self.old inputs → StandsForInputs plan self.new (cue.now ∷ inputs)) }
        ensures err { OnErr result ((plan : PutPlan) (inputs : List Cue) →
            StandsForInputs plan self.old inputs → StandsForInputs plan self.new inputs) }
    {
        if is_for(cue, self.issuer.client, self.issuer.op, &self.issuer.key) {
            self.take(alloc, cue)
        } else {
            Ok(Turn::quiet(alloc))
        }
    }

    /// What it awaits; from its reply on, what it awaited then.
    pub fn phase(&self) -> Phase
        ensures { (plan : PutPlan) (inputs : List Cue) →
            StandsForInputs plan self.now inputs → result ≡ (put_progress plan inputs).phase }
    {
        self.progress().phase
    }

    /// How much it has of what it awaits.
    pub fn have(&self) -> u32
        ensures { (plan : PutPlan) (inputs : List Cue) →
            StandsForInputs plan self.now inputs → result ≡ (put_progress plan inputs).have }
    {
        self.progress().have
    }

    /// How much it awaits in all.
    pub fn need(&self) -> u32
        ensures { (plan : PutPlan) (inputs : List Cue) →
            StandsForInputs plan self.now inputs → result ≡ (put_progress plan inputs).need }
    {
        self.progress().need
    }

    /// How far the put is.
    fn progress(&self) -> Progress
        ensures { (plan : PutPlan) (inputs : List Cue) →
            StandsForInputs plan self.now inputs → Tells result (put_progress plan inputs) }
    {
        match &self.state {
            State::Reading => awaits_service(Phase::Read),
            State::Storing(storing) => self.storing_progress(&storing.acked),
            State::Updating(_rec) => awaits_service(Phase::Update),
            State::Replied(progress) => *progress,
        }
    }

    /// How far the put is where it was told the record and these clouds have acknowledged; a delete awaits the service alone.
    fn storing_progress(&self, acked: &Marks) -> Progress
        ensures { result ≡ storing_progress self.now.content acked.now }
    {
        match &self.content {
            Some(content) => Progress {
                phase: Phase::Store,
                have: u32::from(acked.count_below(content.clouds())),
                need: u32::from(content.quorum()),
            },
            None => awaits_service(Phase::Update),
        }
    }
}

/// One answer of the service is awaited.
fn awaits_service(phase: Phase) -> Progress
    ensures { result ≡ record { phase = phase; have = 0; need = 1 } }
{
    Progress {
        phase,
        have: 0,
        need: 1,
    }
}
