//! The events of a schedule.

ghost use Rattle.std.specs.Prelude.{◌≡◌};

use hy_record::{Action, CloudSay, Key, Stamp};
use std::marker::Model;

/// An event of a schedule. One that names a client or a message that is not there has no effect.
#[derive(Debug, Drop, PartialEq, Eq)]
pub enum Event {
    /// The next client joins; clients are numbered from 1.
    Join,
    /// A client is asked for an operation, and each message that is sent from then on is delivered,
    /// until the operation has its reply.
    Do {
        client: u32,
        action: Action,
    },
    /// A client is asked for an operation.
    Invoke {
        client: u32,
        action: Action,
    },
    /// The message of this number is delivered, for the first time or again. Messages are numbered
    /// from 1 in the order in which they are sent.
    Give {
        number: u32,
    },
    /// An answer of a Byzantine cloud is delivered to a client's operation.
    Lie {
        cloud: u8,
        client: u32,
        op: u32,
        key: Key,
        stamp: Stamp,
        say: CloudSay,
    },
    /// A retransmission timeout of a client.
    Tick {
        client: u32,
    },
    /// A client crashes.
    Stop {
        client: u32,
    },
}

impl Event {
    ghost use Rattle.hy_sched.specs.Ranges.{is_join};

    /// Whether a client joins.
    pub(crate) fn is_join(&self) -> bool
        ensures { result ≡ is_join self.now }
    {
        matches!(self, Event::Join)
    }
}

/// The events of a schedule, in order.
#[derive(Debug, Drop)]
pub struct Events {
    events: Vec<Event>,
}

impl Model for Events {
    ghost use Rattle.std.specs.Prelude.{List};
    ghost use Rattle.hy_sched.specs.declared.event.Event.{Event};

    ghost Value = { List Event };

    ghost view = { λ list. list.events.items };
}

impl Events {
    /// The list of these events.
    pub fn of(events: Vec<Event>) -> Events
        ensures { result ≡ events.items }
    {
        Events { events }
    }

    /// The events, in order.
    pub fn items(&self) -> &[Event]
        ensures { result.now ≡ self.now }
    {
        &self.events
    }

    /// The events, in the memory that they have.
    pub fn into_items(self) -> Vec<Event>
        ensures { result.items ≡ self }
    {
        self.events
    }
}
