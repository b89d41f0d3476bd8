//! Writing a schedule, line by line.

ghost use Rattle.std.specs.Prelude.{◌≡◌, ◌++◌, IfOk, OnOk, map};
ghost use Rattle.hy_text.specs.Line.{line_text, spaced, text_of};
ghost use Rattle.hy_sched.specs.Text.{event_row, event_words, header_row, schedule_text};

use crate::event::Event;
use crate::params::Params;
use crate::say::push_say;
use crate::schedule::Schedule;
use hy_base::{Blob, NoMemory};
use hy_text::{Named, push_action, push_clouds, push_number_word, push_stamp, push_word};
use std::alloc::Global;

/// The text of the schedule.
pub fn write_schedule(alloc: Global, schedule: &Schedule) -> Result<Blob, NoMemory>
    ensures { IfOk result (λ text. text ≡ schedule_text schedule.now) }
{
    let mut out = Vec::new(alloc);
    push_header(&mut out, schedule.params)?;
    push_events(&mut out, schedule.events.items())?;
    Ok(Blob::of(out))
}

/// Appends the first line.
fn push_header(out: &mut Vec<u8>, params: Params) -> Result<(), NoMemory>
    ensures { OnOk result (out.new.items ≡ out.old.items ++ line_text (header_row params)) }
{
    out.extend_from_slice(b"hybris 1 f")?;
    push_number_word(out, params.f.into())?;
    push_word(out, b"k")?;
    push_number_word(out, params.k.into())?;
    push_word(out, b"liars")?;
    push_clouds(out, params.liars)?;
    out.push(b'\n')?;
    Ok(())
}

/// Appends the lines of the events.
fn push_events(out: &mut Vec<u8>, events: &[Event]) -> Result<(), NoMemory>
    ensures { OnOk result (out.new.items ≡ out.old.items ++ text_of (map event_row events.now)) }
{
    for event in events {
        push_event(out, event)?;
    }
    Ok(())
}

/// Appends the line of the event.
fn push_event(out: &mut Vec<u8>, event: &Event) -> Result<(), NoMemory>
    ensures { OnOk result (out.new.items ≡ out.old.items ++ line_text (event_row event.now)) }
{
    out.extend_from_slice(event.kind().word())?;
    push_event_words(out, event)?;
    out.push(b'\n')?;
    Ok(())
}

/// Appends the words of the event after its first, each with a space before it.
fn push_event_words(out: &mut Vec<u8>, event: &Event) -> Result<(), NoMemory>
    ensures { OnOk result (out.new.items ≡ out.old.items ++ spaced (event_words event.now)) }
{
    match event {
        Event::Join => Ok(()),
        Event::Do { client, action } | Event::Invoke { client, action } => {
            push_number_word(out, (*client).into())?;
            push_action(out, action)
        }
        Event::Give { number } => push_number_word(out, (*number).into()),
        Event::Lie {
            cloud,
            client,
            op,
            key,
            stamp,
            say,
        } => {
            push_number_word(out, (*cloud).into())?;
            push_number_word(out, (*client).into())?;
            push_number_word(out, (*op).into())?;
            push_word(out, key.bytes())?;
            push_stamp(out, stamp)?;
            push_say(out, say)
        }
        Event::Tick { client } | Event::Stop { client } => push_number_word(out, (*client).into()),
    }
}
