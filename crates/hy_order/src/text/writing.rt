//! Writing a report, line by line.

ghost use Rattle.std.specs.Prelude.{◌≡◌, ◌++◌, IfOk, OnOk, codes, map, [], ◌∷◌};
ghost use Rattle.hy_text.specs.Line.{line_text, spaced, text_of};
ghost use Rattle.hy_order.specs.Report.{
  report_text,
  operation_row,
  order_row,
  held_row,
  end_row,
  reply_words,
  end_words,
};

use crate::held::Held;
use crate::operation::{End, Operation};
use crate::order::Order;
use crate::report::Report;
use hy_base::{Blob, NoMemory};
use hy_record::Reply;
use hy_text::{
    Named, push_action, push_clouds, push_number_word, push_numbers, push_stamp, push_value_word,
    push_word,
};
use std::alloc::Global;

/// The text of the report.
pub fn write_report(alloc: Global, report: &Report) -> Result<Blob, NoMemory>
    ensures { IfOk result (λ text. text ≡ report_text report.now) }
{
    let mut out = Vec::new(alloc);
    push_operations(&mut out, report.history.items())?;
    push_orders(&mut out, report.orders.items())?;
    push_copies(&mut out, report.held.items())?;
    push_end_line(&mut out, report)?;
    Ok(Blob::of(out))
}

fn push_operations(out: &mut Vec<u8>, ops: &[Operation]) -> Result<(), NoMemory>
    ensures { OnOk result (out.new.items ≡ out.old.items ++ text_of (map operation_row ops.now)) }
{
    for op in ops {
        push_operation(out, op)?;
    }
    Ok(())
}

fn push_orders(out: &mut Vec<u8>, orders: &[Order]) -> Result<(), NoMemory>
    ensures { OnOk result (out.new.items ≡ out.old.items ++ text_of (map order_row orders.now)) }
{
    for order in orders {
        push_order(out, order)?;
    }
    Ok(())
}

fn push_copies(out: &mut Vec<u8>, copies: &[Held]) -> Result<(), NoMemory>
    ensures { OnOk result (out.new.items ≡ out.old.items ++ text_of (map held_row copies.now)) }
{
    for held in copies {
        push_held(out, held)?;
    }
    Ok(())
}

fn push_operation(out: &mut Vec<u8>, op: &Operation) -> Result<(), NoMemory>
    ensures { OnOk result (out.new.items ≡ out.old.items ++ line_text (operation_row op.now)) }
{
    out.extend_from_slice(b"op")?;
    push_number_word(out, op.number.into())?;
    push_number_word(out, op.client.into())?;
    push_action(out, &op.action)?;
    push_number_word(out, op.invoked)?;
    push_end(out, &op.end)?;
    push_line_end(out)?;
    Ok(())
}

fn push_end(out: &mut Vec<u8>, end: &End) -> Result<(), NoMemory>
    ensures { OnOk result (out.new.items ≡ out.old.items ++ spaced (end_words end.now)) }
{
    match end {
        End::Replied { at, reply } => {
            push_number_word(out, *at)?;
            push_reply(out, reply)
        }
        End::Pending { phase, have, need } => {
            out.extend_from_slice(b" -")?;
            push_word(out, phase.word())?;
            push_number_word(out, (*have).into())?;
            push_number_word(out, (*need).into())
        }
    }
}

fn push_reply(out: &mut Vec<u8>, reply: &Reply) -> Result<(), NoMemory>
    ensures { OnOk result (out.new.items ≡ out.old.items ++ spaced (reply_words reply.now)) }
{
    match reply {
        Reply::Done(stamp) => {
            out.extend_from_slice(b" done")?;
            push_stamp(out, stamp)
        }
        Reply::Exhausted(stamp) => {
            out.extend_from_slice(b" exhausted")?;
            push_stamp(out, stamp)
        }
        Reply::Value(value, stamp) => {
            out.extend_from_slice(b" value")?;
            push_value_word(out, value.bytes())?;
            push_stamp(out, stamp)
        }
        Reply::Absent(stamp) => {
            out.extend_from_slice(b" none")?;
            push_stamp(out, stamp)
        }
        Reply::Collected(count) => {
            out.extend_from_slice(b" collected")?;
            push_number_word(out, (*count).into())
        }
        Reply::Swapped(stamp) => {
            out.extend_from_slice(b" swapped")?;
            push_stamp(out, stamp)
        }
        Reply::Changed(stamp) => {
            out.extend_from_slice(b" changed")?;
            push_stamp(out, stamp)
        }
    }
}

fn push_order(out: &mut Vec<u8>, order: &Order) -> Result<(), NoMemory>
    ensures { OnOk result (out.new.items ≡ out.old.items ++ line_text (order_row order.now)) }
{
    out.extend_from_slice(b"order")?;
    push_word(out, order.key.bytes())?;
    push_numbers(out, b' ', order.ops.items())?;
    push_line_end(out)?;
    Ok(())
}

fn push_held(out: &mut Vec<u8>, held: &Held) -> Result<(), NoMemory>
    ensures { OnOk result (out.new.items ≡ out.old.items ++ line_text (held_row held.now)) }
{
    out.extend_from_slice(b"held")?;
    push_word(out, held.key.bytes())?;
    push_stamp(out, &held.stamp)?;
    push_clouds(out, held.clouds)?;
    push_line_end(out)?;
    Ok(())
}

fn push_end_line(out: &mut Vec<u8>, report: &Report) -> Result<(), NoMemory>
    ensures { OnOk result (out.new.items ≡ out.old.items ++ line_text (end_row report.now)) }
{
    out.extend_from_slice(b"end")?;
    push_number_word(out, report.history.items().len() as u64)?;
    push_number_word(out, report.orders.items().len() as u64)?;
    push_line_end(out)?;
    Ok(())
}

fn push_line_end(out: &mut Vec<u8>) -> Result<(), NoMemory>
    ensures { OnOk result (out.new.items ≡ out.old.items ++ 10 ∷ []) }
{
    out.push(b'\n')?;
    Ok(())
}
