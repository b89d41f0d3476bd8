//! The answer on a connection that is closed behind it.

ghost use Rattle.std.specs.Prelude.{◌≡◌};
ghost use Rattle.hy_base.specs.Net.{Adds};
ghost use Rattle.hy_serve.specs.Answer.{Answers};

use hy_base::{Blob, Net};

/// The bytes that are sent on the connection before it is closed.
#[derive(Debug, Drop)]
pub(crate) struct Answer {
    pub(crate) conn: u32,
    pub(crate) bytes: Blob,
}

/// Sends the answer, if there is one, and closes its connection, whether or not it could be sent.
pub(crate) fn give<N: Net>(net: &mut N, answer: &Option<Answer>)
    ensures adds { Adds N.told N.tells net.old net.new (Answers answer.now) }
    ensures taking { N.taking_faults net.new ≡ N.taking_faults net.old }
{
    if let Some(answer) = answer {
        let _sent = net.send(answer.conn, answer.bytes.bytes());
        net.close(answer.conn);
    }
}
