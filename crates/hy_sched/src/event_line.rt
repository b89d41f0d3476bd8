//! The lines of events.

ghost use Rattle.std.specs.Prelude.{◌≡◌, ◌<◌, ◌≤◌, IfOk};
ghost use Rattle.hy_text.specs.Gives.{Gives};
ghost use Rattle.hy_sched.specs.Reading.{
  event_at,
  event_by,
  event_of,
  joined_with,
  lie_of_words,
  liar_of,
  number_of_words,
  request_of_words,
  room_for,
};

use crate::event::Event;
use crate::event_kind::{EVENT_KINDS, EventKind};
use crate::params::Params;
use crate::say::read_say;
use hy_base::{Cause, MAX_CLOUDS, MAX_COUNT, MAX_EVENTS, MAX_SESSIONS};
use hy_record::Action;
use hy_text::{
    LineError, LineKind, Verbs, Words, read_action, read_key, read_named, read_stamp, read_u32,
};
use std::alloc::Global;
use std::marker::Model;

/// The lines of events, after so many events and so many clients that joined.
#[derive(Drop)]
pub(crate) struct EventLines {
    params: Params,
    count: u32,
    joined: u32,
}

impl Model for EventLines {
    ghost use Rattle.std.specs.Prelude.{◌≤◌};
    ghost use Rattle.hy_base.specs.declared.limits.TheConstants.{MAX_EVENTS, MAX_SESSIONS};
    ghost use Rattle.hy_sched.specs.Reading.{Before};

    ghost Value = { Before };

    ghost view = { λ lines.
        record { params = lines.params; count = lines.count; joined = lines.joined } };

    ghost invariant = { λ lines. (lines.count ≤ MAX_EVENTS) × (lines.joined ≤ MAX_SESSIONS) };
}

impl EventLines {
    /// The lines from the first event on, in a store of these parameters.
    pub(crate) fn of(params: Params) -> EventLines
        ensures { result ≡ record { params = params; count = 0; joined = 0 } }
    {
        EventLines {
            params,
            count: 0,
            joined: 0,
        }
    }
}

impl LineKind for EventLines {
    ghost use Rattle.hy_sched.specs.Reading.{event_lines};

    type Item = Event;

    ghost kind = { event_lines };

    fn is_due(&self, _keyword: &[u8]) -> bool {
        true
    }

    fn read(
        &mut self,
        alloc: Global,
        keyword: &[u8],
        words: &mut Words,
    ) -> Result<Event, LineError> {
        let event = read_event_at(alloc, self.params, self.count, self.joined, keyword, words)?;
        self.count += 1;
        self.joined = joined_with(self.joined, &event);
        Ok(event)
    }
}

/// The event of a line after so many events and so many clients that joined.
#[tactic(auto, unfolding(crate::specs::Reading::event_at))]
fn read_event_at(
    alloc: Global,
    params: Params,
    count: u32,
    joined: u32,
    keyword: &[u8],
    words: &mut Words,
) -> Result<Event, LineError>
    requires { joined ≤ MAX_SESSIONS }
    ensures gives { Gives result (event_at
        (record { params = params; count = count; joined = joined }) keyword.now words.old) }
    ensures room { IfOk result
        (λ event. (count < MAX_EVENTS) × (joined_with joined event ≤ MAX_SESSIONS)) }
{
    if count >= MAX_EVENTS {
        return Err(LineError::Bad(Cause::TooManyLines));
    }
    let event = read_event(alloc, params, keyword, words)?;
    check_room(joined, &event)?;
    Ok(event)
}

/// Whether there is room for the event where so many clients joined before it.
fn check_room(joined: u32, event: &Event) -> Result<(), Cause>
    ensures { result ≡ room_for joined event.now }
{
    if event.is_join() && joined >= MAX_SESSIONS {
        Err(Cause::TooManyOpen)
    } else {
        Ok(())
    }
}

/// How many clients joined, with this event.
fn joined_with(joined: u32, event: &Event) -> u32
    requires { joined_with joined event.now ≤ MAX_SESSIONS }
    ensures { result ≡ joined_with joined event.now }
{
    if event.is_join() { joined + 1 } else { joined }
}

/// The event of a line, of its first word and the words after it.
#[tactic(auto, unfolding(crate::specs::Reading::event_of))]
fn read_event(
    alloc: Global,
    params: Params,
    keyword: &[u8],
    words: &mut Words,
) -> Result<Event, LineError>
    ensures { Gives result (event_of params keyword.now words.old) }
{
    let kind = read_named(&EVENT_KINDS, keyword)?;
    read_event_by(alloc, params, kind, words)
}

/// The event of the kind, of the words after that of the kind.
#[tactic(auto, unfolding(crate::specs::Reading::event_by))]
fn read_event_by(
    alloc: Global,
    params: Params,
    kind: EventKind,
    words: &mut Words,
) -> Result<Event, LineError>
    ensures { Gives result (event_by params kind words.old) }
{
    match kind {
        EventKind::Open => {
            words.end()?;
            Ok(Event::Join)
        }
        EventKind::Do => {
            let (client, action) = read_request(alloc, words)?;
            Ok(Event::Do { client, action })
        }
        EventKind::Invoke => {
            let (client, action) = read_request(alloc, words)?;
            Ok(Event::Invoke { client, action })
        }
        EventKind::Give => {
            let number = read_last_number(words, MAX_COUNT)?;
            Ok(Event::Give { number })
        }
        EventKind::Lie => read_lie(alloc, params, words),
        EventKind::Tick => {
            let client = read_last_number(words, MAX_SESSIONS)?;
            Ok(Event::Tick { client })
        }
        EventKind::Stop => {
            let client = read_last_number(words, MAX_SESSIONS)?;
            Ok(Event::Stop { client })
        }
    }
}

/// A number from 1 to `high`, with no word after it.
#[tactic(auto, unfolding(crate::specs::Reading::number_of_words))]
fn read_last_number(words: &mut Words, high: u32) -> Result<u32, Cause>
    ensures { result ≡ number_of_words 1 high words.old }
{
    let number = read_u32(words.next_word(), 1, high)?;
    words.end()?;
    Ok(number)
}

/// A client, and what it is asked for.
#[tactic(auto, unfolding(crate::specs::Reading::request_of_words))]
fn read_request(alloc: Global, words: &mut Words) -> Result<(u32, Action), LineError>
    ensures { Gives result (request_of_words words.old) }
{
    let client = read_u32(words.next_word(), 1, MAX_SESSIONS)?;
    let action = read_action(alloc, words, Verbs::All, MAX_SESSIONS)?;
    words.end()?;
    Ok((client, action))
}

/// The answer of a Byzantine cloud.
#[tactic(auto, unfolding(crate::specs::Reading::lie_of_words))]
fn read_lie(alloc: Global, params: Params, words: &mut Words) -> Result<Event, LineError>
    ensures { Gives result (lie_of_words params words.old) }
{
    let cloud = read_liar(params, words.next_word())?;
    let client = read_u32(words.next_word(), 1, MAX_SESSIONS)?;
    let op = read_u32(words.next_word(), 1, MAX_COUNT)?;
    let key = read_key(words.next_word())?;
    let stamp = read_stamp(words, 1, MAX_SESSIONS)?;
    let say = read_say(alloc, words)?;
    words.end()?;
    Ok(Event::Lie {
        cloud,
        client,
        op,
        key,
        stamp,
        say,
    })
}

/// The Byzantine cloud that the word names.
#[tactic(auto, unfolding(crate::specs::Reading::liar_of))]
fn read_liar(params: Params, word: &[u8]) -> Result<u8, Cause>
    ensures { result ≡ liar_of params word.now }
{
    let cloud = read_u32(word, 0, u32::from(MAX_CLOUDS) - 1)?;
    if params.is_liar(cloud) {
        Ok(cloud as u8)
    } else {
        Err(Cause::BadNumber)
    }
}
