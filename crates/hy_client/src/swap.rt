//! The machine of a conditional swap.

ghost use Rattle.std.specs.Prelude.{◌≡◌, ◌∷◌, ◌≤◌, [], ℕ, List, not, map, is_some, IfOk, IfErr, OnOk, OnErr, Some, None};
ghost use Rattle.std.specs.Option.{option_map};
ghost use Rattle.hy_base.specs.Shape.{IsShape};
ghost use Rattle.hy_record.specs.Stamp.{Timestamp};
ghost use Rattle.hy_record.specs.declared.action.Reply.{Reply};
ghost use Rattle.hy_record.specs.declared.action.Reply.TheVariants as replies;
ghost use Rattle.hy_record.specs.declared.message.MetaSay.TheVariants as says;
ghost use Rattle.hy_record.specs.declared.turn.Cue.{Cue};
ghost use Rattle.hy_record.specs.declared.turn.Cue.TheVariants as cues;
ghost use Rattle.hy_protocol.specs.declared.plan.PutPlan.{PutPlan};
ghost use Rattle.hy_protocol.specs.Inputs.{is_update_answer};
ghost use Rattle.hy_protocol.specs.Write.{first_has, update_of};
ghost use Rattle.hy_protocol.specs.Swap.{expecting, ask_expecting};
ghost use Rattle.hy_protocol.specs.Operations.{write_plan};
ghost use Rattle.hy_protocol.specs.Progress.{write_progress};
ghost use Rattle.hy_protocol.specs.Turns.{swap_turn, swap_progress, put_progress};
ghost use Rattle.hy_operation.specs.Progress.{Tells};
ghost use Rattle.hy_put.specs.Sizes.{oversize, size_told};
ghost use Rattle.hy_put.specs.Standing as puts;

use hy_base::{Blob, MAX_VALUE, NoMemory, quorum_size};
use hy_operation::{Issuer, Progress, stamp_of};
use hy_protocol::is_for;
use hy_put::{PutOp, PutPlan, StartFault};
use hy_record::{Cue, Key, MetaAsk, MetaSay, Out, Outs, Phase, Record, Reply, Stamp, Turn};
use std::alloc::Global;
use std::mem;

/// A conditional swap: it stands for the inputs that it was handed.
#[derive(Debug, Drop)]
pub struct SwapOp {
    issuer: Issuer,
    /// The timestamp that the record is to have.
    expected: Stamp,
    /// How many clouds are to store the value before the swap is sent.
    quorum: u8,
    /// The put of the value, which is handed all but the answers on updates, until the reply.
    put: PutOp,
    /// How far the swap was at its reply.
    replied: Option<Progress>,
}

impl SwapOp {
    ghost use Rattle.hy_client.specs.Swapping.{StandsForInputs, StandsForOwn, Takes, Passes, WhereOpen, TellsSwap, verdict_at};

    /// A swap of the key's value in a store of this shape, and what it sends first. The value is
    /// measured before it is copied.
    pub fn start(
        alloc: Global,
        issuer: Issuer,
        expected: Stamp,
        value: &Blob,
        f: u8,
        k: u8,
    ) -> Result<(SwapOp, Vec<Out>), StartFault>
        requires shape { IsShape f k }
        requires client { 1 ≤ issuer.client }
        ensures stands { IfOk result (λ started. StandsForInputs
            (write_plan f k issuer.client issuer.op issuer.key (Some value.now)) expected
            started.0 []) }
        ensures sends { IfOk result (λ started. started.1.items
            ≡ (swap_turn (write_plan f k issuer.client issuer.op issuer.key (Some value.now))
            expected []).sends) }
        ensures fits { OnOk result (oversize
            (write_plan f k issuer.client issuer.op issuer.key (Some value.now)) ≡ None) }
        ensures fault { IfErr result (λ fault. size_told fault
            ≡ oversize (write_plan f k issuer.client issuer.op issuer.key (Some value.now))) }
    {
        let size = value.bytes().len();
        if size > MAX_VALUE as usize {
            return Err(StartFault::TooLarge(size));
        }
        let value = Blob::copy_of(alloc, value.bytes())?;
        let plan = PutPlan {
            client: issuer.client,
            op: issuer.op,
            key: issuer.key,
            value: Some(value),
            f,
            k,
        };
        let (put, sends) = PutOp::start(alloc, &plan)?;
        let swap = SwapOp {
            issuer,
            expected,
            quorum: quorum_size(f, k),
            put,
            replied: None,
        };
        Ok((swap, sends))
    }

    /// Handles an input: what is sent, and the reply where it comes now.
    pub fn step(&mut self, alloc: Global, cue: &Cue) -> Result<Turn, NoMemory>
        ensures turn { IfOk result (λ turn.
            (plan : PutPlan) (expected : Timestamp) (inputs : List Cue)
            → StandsForInputs plan expected self.old inputs
            → turn ≡ swap_turn plan expected (cue.now ∷ inputs)) }
        ensures ok { OnOk result ((plan : PutPlan) (expected : Timestamp) (inputs : List Cue)
            → StandsForInputs plan expected self.old inputs
            → StandsForInputs plan expected self.new (cue.now ∷ inputs)) }
        ensures err { OnErr result ((plan : PutPlan) (expected : Timestamp) (inputs : List Cue)
            → StandsForInputs plan expected self.old inputs
            → StandsForInputs plan expected self.new inputs) }
    {
        if is_for(cue, self.issuer.client, self.issuer.op, &self.issuer.key) {
            self.take(alloc, cue)
        } else {
            Ok(Turn::quiet(alloc))
        }
    }

    /// What it awaits; from its reply on, what it awaited then.
    pub fn phase(&self) -> Phase
        ensures { (plan : PutPlan) (expected : Timestamp) (inputs : List Cue)
            → StandsForInputs plan expected self.now inputs
            → result ≡ (swap_progress plan expected inputs).phase }
    {
        self.progress().phase
    }

    /// How much it has of what it awaits.
    pub fn have(&self) -> u32
        ensures { (plan : PutPlan) (expected : Timestamp) (inputs : List Cue)
            → StandsForInputs plan expected self.now inputs
            → result ≡ (swap_progress plan expected inputs).have }
    {
        self.progress().have
    }

    /// How much it awaits in all.
    pub fn need(&self) -> u32
        ensures { (plan : PutPlan) (expected : Timestamp) (inputs : List Cue)
            → StandsForInputs plan expected self.now inputs
            → result ≡ (swap_progress plan expected inputs).need }
    {
        self.progress().need
    }

    /// How far the swap is.
    fn progress(&self) -> Progress
        ensures { (plan : PutPlan) (expected : Timestamp) (own : List Cue)
            → StandsForOwn plan expected self.now own → TellsSwap plan expected own result }
    {
        match &self.replied {
            Some(progress) => *progress,
            None => self.put_progress(),
        }
    }

    /// How far the put is.
    fn put_progress(&self) -> Progress
        ensures { (plan : PutPlan) (handed : List Cue)
            → puts.StandsForInputs plan self.now.put handed
            → Tells result (put_progress plan handed) }
    {
        Progress {
            phase: self.put.phase(),
            have: self.put.have(),
            need: self.put.need(),
        }
    }

    /// An input that is for the swap.
    fn take(&mut self, alloc: Global, cue: &Cue) -> Result<Turn, NoMemory>
        ensures { Takes self.old self.new cue.now result }
    {
        if self.replied.is_some() {
            return Ok(Turn::quiet(alloc));
        }
        if is_update_answer(cue) {
            return Ok(Turn::quiet(alloc));
        }
        match self.verdict(cue) {
            Some(reply) => {
                let progress = self.progress_at_verdict();
                self.replied = Some(progress);
                Ok(Turn::replying(alloc, reply))
            }
            None => self.pass(alloc, cue),
        }
    }

    /// The put is handed the input, and what it sends asks for the expected timestamp.
    fn pass(&mut self, alloc: Global, cue: &Cue) -> Result<Turn, NoMemory>
        ensures { Passes self.old self.new cue.now result }
    {
        let Turn { sends, reply } = self.put.step(alloc, cue)?;
        match reply {
            Some(reply) => {
                let progress = self.put_progress();
                self.replied = Some(progress);
                Ok(Turn::replying(alloc, reply))
            }
            None => {
                let sends = expecting(sends, self.expected, self.issuer.key);
                Ok(Turn::sending(sends))
            }
        }
    }

    /// The reply that the service's judgement makes at this input, if it makes one.
    fn verdict(&self, cue: &Cue) -> Option<Reply>
        ensures { WhereOpen self.now (λ plan expected own.
            result ≡ verdict_at plan expected cue.now own) }
    {
        match cue {
            Cue::Meta(say) => self.judgement(say),
            Cue::Cloud(_reply) => None,
            Cue::Tick => None,
        }
    }

    /// The reply that an answer of the service makes, if it makes one.
    fn judgement(&self, say: &MetaSay) -> Option<Reply>
        ensures { WhereOpen self.now (λ plan expected own.
            result ≡ verdict_at plan expected (cues.Meta say.now) own) }
    {
        match say {
            MetaSay::Has { rec, .. } => self.mismatch(rec),
            MetaSay::Swapped { .. } => self.done(),
            MetaSay::Changed { stamp, .. } => self.refused(*stamp),
            MetaSay::Applied { .. } => None,
            MetaSay::Kept { .. } => None,
            MetaSay::Fired { .. } => None,
            MetaSay::OldList { .. } => None,
            MetaSay::Forgot { .. } => None,
        }
    }

    /// The reply to the record, where it is the first that is told and has another timestamp than
    /// the expected one.
    fn mismatch(&self, rec: &Option<Record>) -> Option<Reply>
        ensures { (c o : ℕ) (k : List ℕ) → WhereOpen self.now (λ plan expected own.
            result ≡ verdict_at plan expected (cues.Meta (says.Has c o k rec.now)) own) }
    {
        if !self.awaits_record() {
            return None;
        }
        let held = stamp_of(rec);
        if held.is_same(&self.expected) {
            None
        } else {
            Some(Reply::Changed(held))
        }
    }

    /// The reply where the service made the record that of the key: the timestamp is the write's
    /// own.
    fn done(&self) -> Option<Reply>
        ensures { WhereOpen self.now (λ plan expected own.
            result ≡ option_map (λ r. replies.Swapped r.stamp) (update_of plan own)) }
    {
        if self.awaits_verdict() {
            match self.expected.after(self.issuer.client) {
                Some(stamp) => Some(Reply::Swapped(stamp)),
                None => None,
            }
        } else {
            None
        }
    }

    /// The reply where the record of this timestamp stayed.
    fn refused(&self, stamp: Stamp) -> Option<Reply>
        ensures { WhereOpen self.now (λ plan expected own.
            result ≡ option_map (λ r. replies.Changed stamp) (update_of plan own)) }
    {
        if self.awaits_verdict() {
            Some(Reply::Changed(stamp))
        } else {
            None
        }
    }

    /// Whether no record was told yet.
    fn awaits_record(&self) -> bool
        ensures { WhereOpen self.now (λ plan expected own. result ≡ not (is_some (first_has own))) }
    {
        match self.put.phase() {
            Phase::Read => true,
            _ => false,
        }
    }

    /// Whether the swap was sent.
    fn awaits_verdict(&self) -> bool
        ensures { WhereOpen self.now (λ plan expected own. result ≡ is_some (update_of plan own)) }
    {
        match self.put.phase() {
            Phase::Update => true,
            _ => false,
        }
    }

    /// How far the swap is where the service's judgement makes its reply: it found another record
    /// first, or it was sent.
    fn progress_at_verdict(&self) -> Progress
        ensures { (cue : Cue) (reply : Reply) → WhereOpen self.now (λ plan expected own.
            verdict_at plan expected cue own ≡ Some reply
            → Tells result (write_progress plan (cue ∷ own))) }
    {
        if self.awaits_record() {
            Progress {
                phase: Phase::Store,
                have: 0,
                need: u32::from(self.quorum),
            }
        } else {
            Progress {
                phase: Phase::Update,
                have: 0,
                need: 1,
            }
        }
    }
}

/// Whether it is an answer on an update.
fn is_update_answer(cue: &Cue) -> bool
    ensures { result ≡ is_update_answer cue.now }
{
    match cue {
        Cue::Meta(say) => match say {
            MetaSay::Applied { .. } => true,
            MetaSay::Kept { .. } => true,
            MetaSay::Has { .. } => false,
            MetaSay::Fired { .. } => false,
            MetaSay::OldList { .. } => false,
            MetaSay::Forgot { .. } => false,
            MetaSay::Swapped { .. } => false,
            MetaSay::Changed { .. } => false,
        },
        Cue::Cloud(_reply) => false,
        Cue::Tick => false,
    }
}

/// The messages, where each update asks for the expected timestamp; they stay in the memory that
/// they have.
fn expecting(sends: Outs, expected: Stamp, key: Key) -> Vec<Out>
    ensures { result.items ≡ map (expecting expected) sends }
{
    let mut items = sends.into_items();
    for out in items.iter_mut() {
        expect(out, expected, key);
    }
    items
}

/// The message asks for the expected timestamp, where it is an update. The key only fills a place.
fn expect(out: &mut Out, expected: Stamp, key: Key)
    ensures { out.new ≡ expecting expected out.old }
{
    let empty = Out::Meta(MetaAsk::Olds {
        client: 0,
        op: 0,
        key,
    });
    *out = match mem::replace(out, empty) {
        Out::Meta(ask) => Out::Meta(ask_expecting(ask, expected)),
        Out::Cloud(ask) => Out::Cloud(ask),
    };
}

/// The request asks for the expected timestamp, where it is an update.
fn ask_expecting(ask: MetaAsk, expected: Stamp) -> MetaAsk
    ensures { result ≡ ask_expecting expected ask }
{
    match ask {
        MetaAsk::Update {
            client,
            op,
            key,
            rec,
        } => MetaAsk::Swap {
            client,
            op,
            key,
            expected,
            rec,
        },
        other => other,
    }
}
