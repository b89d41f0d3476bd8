//! The operations of a run, in the order of their invocation.

ghost use Rattle.std.specs.Prelude.{◌≡◌};
ghost use Rattle.hy_order.specs.History.{IsHistory};

use crate::operation::Operation;
use std::marker::Model;

/// Operations, numbered from 1, each with an end that its action can have.
#[derive(Debug, Drop)]
pub struct History {
    operations: Vec<Operation>,
}

impl Model for History {
    ghost use Rattle.std.specs.Prelude.{List};
    ghost use Rattle.hy_order.specs.declared.operation.Operation.{Operation};
    ghost use Rattle.hy_order.specs.History.{IsHistory};

    ghost Value = { List Operation };

    ghost view = { λ history. history.operations.items };

    ghost invariant = { λ history. IsHistory history.operations.items };
}

impl History {
    /// The history of these operations.
    pub fn of(operations: Vec<Operation>) -> History
        requires { IsHistory operations.items }
        ensures { result ≡ operations.items }
    {
        History { operations }
    }

    /// The operations, in order.
    pub fn items(&self) -> &[Operation]
        ensures value { result.now ≡ self.now }
        ensures history { IsHistory self.now }
    {
        &self.operations
    }

    /// The operations, in the memory that they have.
    pub fn into_items(self) -> Vec<Operation>
        ensures value { result.items ≡ self }
        ensures history { IsHistory self }
    {
        self.operations
    }
}
