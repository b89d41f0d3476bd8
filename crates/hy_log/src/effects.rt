//! What a deed leads to.

ghost use Rattle.std.specs.Prelude.{◌≡◌};
ghost use Rattle.hy_log.specs.Effects.{return_with, AreNone};

use crate::post::Post;
use hy_record::{Action, Reply, Stamp};
use std::alloc::Global;

/// An operation that began.
#[derive(Debug, Drop)]
pub struct Beginning {
    pub client: u32,
    pub op: u32,
    pub action: Action,
}

/// An operation's reply.
#[derive(Debug, Drop)]
pub struct Return {
    pub client: u32,
    pub op: u32,
    pub reply: Reply,
}

/// An operation was told the record: its timestamp, and the step at which the answer was made.
#[derive(Clone, Copy, Debug)]
pub struct Heard {
    pub client: u32,
    pub op: u32,
    pub stamp: Stamp,
    pub made: u64,
}

/// The service served an operation's update or answered its swap, and applied it or refused it: a
/// repeated swap is answered as it was judged. `found` is the timestamp that the record of its key
/// had then; (0, 0) where there was no record.
#[derive(Clone, Copy, Debug)]
pub struct Updated {
    pub client: u32,
    pub op: u32,
    pub is_applied: bool,
    pub found: Stamp,
}

/// What a deed leads to: messages in the order in which they are sent, and what the report of a run
/// tells of it.
#[derive(Debug, Drop)]
pub struct Effects {
    pub posts: Vec<Post>,
    pub began: Option<Beginning>,
    pub returned: Option<Return>,
    pub heard: Option<Heard>,
    pub updated: Option<Updated>,
}

impl Effects {
    /// Nothing is sent or told.
    pub fn none(alloc: Global) -> Effects
        ensures { AreNone result }
    {
        Effects {
            posts: Vec::new(alloc),
            began: None,
            returned: None,
            heard: None,
            updated: None,
        }
    }
}

/// A client's reply, if there is one.
pub fn return_of(client: u32, op: u32, reply: Option<Reply>) -> Option<Return>
    ensures { result ≡ return_with client op reply }
{
    match reply {
        Some(reply) => Some(Return { client, op, reply }),
        None => None,
    }
}
