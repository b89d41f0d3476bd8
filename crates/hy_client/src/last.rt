//! The last operation of a client.

ghost use Rattle.std.specs.Prelude.{◌≡◌, ◌∷◌, List, IfOk, OnOk, OnErr};
ghost use Rattle.hy_record.specs.declared.turn.Cue.{Cue};
ghost use Rattle.hy_protocol.specs.Operations.{key_of};

use crate::machine::Machine;
use hy_base::NoMemory;
use hy_protocol::is_for;
use hy_record::{Action, Cue, Key, Turn};
use std::alloc::Global;

/// What a client keeps of its last operation.
#[derive(Debug, Drop)]
pub(crate) struct Last {
    pub(crate) key: Key,
    pub(crate) machine: Machine,
    pub(crate) replied: bool,
}

impl Last {
    ghost use Rattle.hy_client.specs.Machines.{Task, Continues, taken_turn, taken_inputs};

    /// Handles an input that the client of this number, which began so many operations, was handed.
    pub(crate) fn step(
        &mut self,
        alloc: Global,
        client: u32,
        op: u32,
        cue: &Cue,
    ) -> Result<Turn, NoMemory>
        ensures turn { IfOk result (λ turn. (task : Task) (inputs : List Cue) → task.client ≡ client → task.op ≡ op → Continues task self.old inputs
            → turn ≡ taken_turn task inputs cue.now) }
        ensures ok { OnOk result ((task : Task) (inputs : List Cue) → task.client ≡ client → task.op ≡ op → Continues task self.old inputs
            → Continues task self.new (taken_inputs task inputs cue.now)) }
        ensures err { OnErr result ((task : Task) (inputs : List Cue) → Continues task self.old inputs → Continues task self.new inputs) }
    {
        if self.replied {
            return Ok(Turn::quiet(alloc));
        }
        if !is_for(cue, client, op, &self.key) {
            return Ok(Turn::quiet(alloc));
        }
        let turn = self.machine.step(alloc, cue)?;
        self.replied = turn.reply.is_some();
        Ok(turn)
    }
}

/// The key of an action.
pub(crate) fn key_of(action: &Action) -> Key
    ensures { result ≡ key_of action.now }
{
    match action {
        Action::Put { key, value: _ } => *key,
        Action::Get { key } => *key,
        Action::Delete { key } => *key,
        Action::Collect { key } => *key,
        Action::Swap {
            key,
            expected: _,
            value: _,
        } => *key,
    }
}
