//! What goes into an operation and what comes out of it.

ghost use Rattle.std.specs.Prelude.{◌≡◌, [], Some, None};

use crate::action::Reply;
use crate::cloud::{CloudAsk, CloudReply};
use crate::message::{MetaAsk, MetaSay};
use std::alloc::Global;
use std::marker::Model;

/// An input of an operation.
#[derive(Debug, Drop)]
pub enum Cue {
    /// An answer of the metadata service.
    Meta(MetaSay),
    /// An answer of a cloud.
    Cloud(CloudReply),
    /// A retransmission timeout.
    Tick,
}

/// A message that an operation sends.
#[derive(Debug, Drop)]
pub enum Out {
    /// To the metadata service.
    Meta(MetaAsk),
    /// To a cloud.
    Cloud(CloudAsk),
}

/// Messages that an operation sends, in order.
#[derive(Debug, Drop)]
pub struct Outs {
    items: Vec<Out>,
}

impl Model for Outs {
    ghost use Rattle.std.specs.Prelude.{List};
    ghost use Rattle.hy_record.specs.declared.turn.Out.{Out};

    ghost Value = { List Out };

    ghost view = { λ outs. outs.items.items };
}

impl Outs {
    /// These messages, in order.
    pub fn of(items: Vec<Out>) -> Outs
        ensures { result ≡ items.items }
    {
        Outs { items }
    }

    /// The messages, in order.
    pub fn items(&self) -> &[Out]
        ensures { result.now ≡ self.now }
    {
        &self.items
    }

    /// The messages, in the memory that they have.
    pub fn into_items(self) -> Vec<Out>
        ensures { result.items ≡ self }
    {
        self.items
    }
}

/// What an operation does at an input: what it sends, and its reply where that comes now.
#[derive(Debug, Drop)]
pub struct Turn {
    pub sends: Outs,
    pub reply: Option<Reply>,
}

impl Turn {
    /// Nothing is sent or replied.
    pub fn quiet(alloc: Global) -> Turn
        ensures { result ≡ record { sends = []; reply = None } }
    {
        Turn {
            sends: Outs::of(Vec::new(alloc)),
            reply: None,
        }
    }

    /// These messages are sent, and no reply comes.
    pub fn sending(sends: Vec<Out>) -> Turn
        ensures { result ≡ record { sends = sends.items; reply = None } }
    {
        Turn {
            sends: Outs::of(sends),
            reply: None,
        }
    }

    /// The reply comes, and nothing is sent.
    pub fn replying(alloc: Global, reply: Reply) -> Turn
        ensures { result ≡ record { sends = []; reply = Some reply } }
    {
        Turn {
            sends: Outs::of(Vec::new(alloc)),
            reply: Some(reply),
        }
    }
}
