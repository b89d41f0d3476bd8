//! The operations of a history by number and by key.

ghost use Rattle.std.specs.Prelude.{◌≡◌, ◌∷◌, ◌++◌, ℕ, List, [], IfSome, IfNone, IfOk, OnOk, length, map};
ghost use Rattle.std.specs.List.{filter};
ghost use Rattle.std.specs.Option.{option_copied};
ghost use Rattle.hy_order.specs.History.{IsNumberedFrom};
ghost use Rattle.hy_order.specs.Index.{IsGrouped, operations_under};
ghost use Rattle.hy_order.specs.Linearization.{is_of_key, operation_at};

use crate::history::History;
use crate::membership::key_of_action;
use crate::operation::Operation;
use hy_base::NoMemory;
use hy_record::Key;
use std::alloc::Global;
use std::collections::BTreeMap;
use std::marker::Model;

/// The operations of a history, each found by its number and by its key.
#[derive(Drop)]
pub(crate) struct OperationIndex<'a> {
    ops: &'a [Operation],
    by_key: BTreeMap<Key, Vec<&'a Operation>>,
}

impl<'a> Model for OperationIndex<'a> {
    ghost use Rattle.std.specs.Prelude.{List};
    ghost use Rattle.hy_order.specs.declared.operation.Operation.{Operation};
    ghost use Rattle.hy_order.specs.Index.{IsIndex};

    ghost Value = { List Operation };

    ghost view = { λ index. index.ops.now };

    ghost invariant = { λ index. IsIndex index.ops.now index.by_key.entries };
}

impl<'a> OperationIndex<'a> {
    /// The index of the history, in one pass over it.
    pub(crate) fn of(alloc: Global, history: &'a History) -> Result<OperationIndex<'a>, NoMemory>
        ensures { IfOk result (λ index. index ≡ history.now) }
    {
        let ops = history.items();
        let by_key = grouped(alloc, ops)?;
        Ok(OperationIndex { ops, by_key })
    }

    /// How many operations there are.
    pub(crate) fn len(&self) -> usize
        ensures count { result ≡ length self.now }
        ensures numbered { IsNumberedFrom 1 self.now }
    {
        self.ops.len()
    }

    /// The operations, in the order of the history.
    pub(crate) fn operations(&self) -> &'a [Operation]
        ensures value { result.now ≡ self.now }
        ensures numbered { IsNumberedFrom 1 self.now }
    {
        self.ops
    }

    /// The operations of the key, in the order of the history; nothing where it has none.
    pub(crate) fn of_key(&self, key: &Key) -> Option<&Vec<&'a Operation>>
        ensures some { IfSome result (λ ops. map (λ op. op.now) ops.now.items ≡ filter (is_of_key key.now) self.now) }
        ensures none { IfNone result (filter (is_of_key key.now) self.now ≡ []) }
    {
        self.by_key.get(key)
    }
}

/// The operation of the number.
pub(crate) fn operation_of(ops: &[Operation], number: u32) -> Option<&Operation>
    requires { IsNumberedFrom 1 ops.now }
    ensures { option_copied result ≡ operation_at ops.now number }
{
    let place = number.checked_sub(1)?;
    ops.get(place as usize)
}

/// The operations under their keys, those of a key in the order of the list.
fn grouped<'a>(
    alloc: Global,
    ops: &'a [Operation],
) -> Result<BTreeMap<Key, Vec<&'a Operation>>, NoMemory>
    ensures { IfOk result (λ by_key. IsGrouped ops.now by_key.entries) }
{
    let mut by_key = BTreeMap::new(alloc);
    for op in ops {
        add_operation(alloc, &mut by_key, op)?;
    }
    Ok(by_key)
}

/// Adds the operation after those of its key.
fn add_operation<'a>(
    alloc: Global,
    by_key: &mut BTreeMap<Key, Vec<&'a Operation>>,
    op: &'a Operation,
) -> Result<(), NoMemory>
    ensures { OnOk result ((key : List ℕ) → operations_under by_key.new.entries key
        ≡ operations_under by_key.old.entries key ++ filter (is_of_key key) (op.now ∷ [])) }
{
    let ops = by_key
        .entry(*key_of_action(&op.action))?
        .or_insert(Vec::new(alloc));
    ops.push(op)?;
    Ok(())
}
