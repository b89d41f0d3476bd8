//! The machine of an operation, whichever it is.

ghost use Rattle.std.specs.Prelude.{◌≡◌, ◌∷◌, ◌≤◌, [], ℕ, List, IfOk, IfErr, OnOk, OnErr, None};
ghost use Rattle.hy_base.specs.Shape.{IsShape};
ghost use Rattle.hy_record.specs.declared.turn.Cue.{Cue};
ghost use Rattle.hy_protocol.specs.Operations.{sends_of};
ghost use Rattle.hy_operation.specs.Progress.{Tells};
ghost use Rattle.hy_client.specs.declared.fault.InvokeFault.TheVariants as faults;

use crate::collect::CollectOp;
use crate::fault::InvokeFault;
use crate::swap::SwapOp;
use hy_base::{Blob, NoMemory};
use hy_get::GetOp;
use hy_operation::{Issuer, Progress};
use hy_put::{PutOp, PutPlan};
use hy_record::{Action, Cue, Key, Out, Turn};
use std::alloc::Global;

/// The machine of an operation.
#[derive(Debug, Drop)]
pub(crate) enum Machine {
    /// Of a put or a delete.
    Put(PutOp),
    Get(GetOp),
    Collect(CollectOp),
    Swap(SwapOp),
}

impl Machine {
    ghost use Rattle.hy_client.specs.Machines.{Task, Runs, task_turn, task_progress};
    ghost use Rattle.hy_client.specs.Sizes.{size_refusal};

    /// The machine of what was asked, as the client's operation of this number in a store of this shape, and what it sends first.
    pub(crate) fn start(
        alloc: Global,
        f: u8,
        k: u8,
        client: u32,
        op: u32,
        action: &Action,
    ) -> Result<(Machine, Vec<Out>), InvokeFault>
        requires shape { IsShape f k }
        requires client { 1 ≤ client }
        ensures stands { IfOk result (λ started. Runs (record { f = f; k = k; client = client; op = op; action = action.now }) started.0 []) }
        ensures sends { IfOk result (λ started. started.1.items ≡ sends_of f k client op action.now []) }
        ensures err { IfErr result (λ fault. size_refusal action.now ≡ None → fault ≡ faults.NoMemory) }
    {
        match action {
            Action::Put { key, value } => {
                let value = Blob::copy_of(alloc, value.bytes())?;
                let plan = PutPlan {
                    client,
                    op,
                    key: *key,
                    value: Some(value),
                    f,
                    k,
                };
                let (put, sends) = PutOp::start(alloc, &plan)?;
                Ok((Machine::Put(put), sends))
            }
            Action::Delete { key } => {
                let plan = PutPlan {
                    client,
                    op,
                    key: *key,
                    value: None,
                    f,
                    k,
                };
                let (put, sends) = PutOp::start(alloc, &plan)?;
                Ok((Machine::Put(put), sends))
            }
            Action::Get { key } => {
                let (get, sends) = GetOp::start(alloc, client, op, key)?;
                Ok((Machine::Get(get), sends))
            }
            Action::Collect { key } => {
                let (collect, sends) = CollectOp::start(alloc, client, op, key, f, k)?;
                Ok((Machine::Collect(collect), sends))
            }
            Action::Swap {
                key,
                expected,
                value,
            } => {
                let issuer = Issuer {
                    client,
                    op,
                    key: *key,
                };
                let (swap, sends) = SwapOp::start(alloc, issuer, *expected, value, f, k)?;
                Ok((Machine::Swap(swap), sends))
            }
        }
    }

    /// Handles an input.
    pub(crate) fn step(&mut self, alloc: Global, cue: &Cue) -> Result<Turn, NoMemory>
        ensures turn { IfOk result (λ turn. (task : Task) (inputs : List Cue) → Runs task self.old inputs → turn ≡ task_turn task (cue.now ∷ inputs)) }
        ensures ok { OnOk result ((task : Task) (inputs : List Cue) → Runs task self.old inputs → Runs task self.new (cue.now ∷ inputs)) }
        ensures err { OnErr result ((task : Task) (inputs : List Cue) → Runs task self.old inputs → Runs task self.new inputs) }
    {
        match self {
            Machine::Put(put) => put.step(alloc, cue),
            Machine::Get(get) => get.step(alloc, cue),
            Machine::Collect(collect) => collect.step(alloc, cue),
            Machine::Swap(swap) => swap.step(alloc, cue),
        }
    }

    /// How far the operation is.
    pub(crate) fn progress(&self) -> Progress
        ensures { (task : Task) (inputs : List Cue) → Runs task self.now inputs → Tells result (task_progress task inputs) }
    {
        let (phase, have, need) = match self {
            Machine::Put(put) => (put.phase(), put.have(), put.need()),
            Machine::Get(get) => (get.phase(), get.have(), get.need()),
            Machine::Collect(collect) => (collect.phase(), collect.have(), collect.need()),
            Machine::Swap(swap) => (swap.phase(), swap.have(), swap.need()),
        };
        Progress { phase, have, need }
    }
}
