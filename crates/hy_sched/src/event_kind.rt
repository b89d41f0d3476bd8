//! The kinds of events, each with a first word of its own.

ghost use Rattle.std.specs.Prelude.{◌≡◌};
ghost use Rattle.hy_sched.specs.Text.{event_kind, event_word};

use crate::event::Event;
use hy_text::Named;

/// The kinds of events, each with a first word of its own.
#[derive(Clone, Copy, Debug, PartialEq, Eq)]
pub(crate) enum EventKind {
    Open,
    Do,
    Invoke,
    Give,
    Lie,
    Tick,
    Stop,
}

/// All kinds of events.
pub(crate) const EVENT_KINDS: [EventKind; 7] = [
    EventKind::Open,
    EventKind::Do,
    EventKind::Invoke,
    EventKind::Give,
    EventKind::Lie,
    EventKind::Tick,
    EventKind::Stop,
];

impl Named for EventKind {
    ghost word_of = { event_word };

    fn word(self) -> &'static [u8] {
        match self {
            EventKind::Open => b"open",
            EventKind::Do => b"do",
            EventKind::Invoke => b"invoke",
            EventKind::Give => b"give",
            EventKind::Lie => b"lie",
            EventKind::Tick => b"tick",
            EventKind::Stop => b"stop",
        }
    }
}

impl Event {
    /// The kind of the event.
    pub(crate) fn kind(&self) -> EventKind
        ensures { result ≡ event_kind self.now }
    {
        match self {
            Event::Join => EventKind::Open,
            Event::Do { .. } => EventKind::Do,
            Event::Invoke { .. } => EventKind::Invoke,
            Event::Give { .. } => EventKind::Give,
            Event::Lie { .. } => EventKind::Lie,
            Event::Tick { .. } => EventKind::Tick,
            Event::Stop { .. } => EventKind::Stop,
        }
    }
}
