//! A net: what comes over it, and what is done on it.

ghost use Rattle.std.specs.Prelude.{List, ℕ, length, ◌≡◌, false, IfOk, is_ok};
ghost use Rattle.std.specs.Result.{result_ok};
ghost use Rattle.hy_base.specs.Faults.{HasCause};
ghost use Rattle.hy_base.specs.Moves.{Move, listen, dial, send, close, is_dialled, InBuffer};
ghost use Rattle.hy_base.specs.Net.{Calls, Takes};

use crate::arrival::Arrival;
use crate::failure::Failed;

/// Connections by number, over which pieces of bytes come and go.
///
/// A net may tell what happened over it. What it tells after a call is what it told before, and
/// the move that the call made; where it does not tell before a call, it does not tell after it.
pub trait Net {
    /// Whether the net tells what happened over it.
    ghost told: { Self → Type 0 };

    /// The moves that the net stands for, the newest first.
    ghost tells: { Self → List Move → Type 0 };

    /// How often `listen` or `next` failed so far.
    ghost taking_faults: { Self → ℕ };

    /// How often `dial` or `send` failed so far.
    ghost sending_faults: { Self → ℕ };

    /// Takes connections at this port from now on.
    fn listen(&mut self, port: u16) -> Result<(), Failed>
        ensures tells { Calls told tells self.old self.new (listen port (is_ok result)) }
        ensures cause { HasCause (taking_faults self.old) (taking_faults self.new) result }
        ensures other { sending_faults self.new ≡ sending_faults self.old };

    /// Opens a connection to this port, and answers its number, which no dial answered before.
    fn dial(&mut self, port: u16) -> Result<u32, Failed>
        ensures tells { Calls told tells self.old self.new (dial port (result_ok result)) }
        ensures fresh { IfOk result (λ conn. told self.new
            → (before : List Move) → tells self.old before → is_dialled conn before ≡ false) }
        ensures cause { HasCause (sending_faults self.old) (sending_faults self.new) result }
        ensures other { taking_faults self.new ≡ taking_faults self.old };

    /// Waits for what comes next, and puts its bytes into the front of the buffer.
    ///
    /// Where it fails, nothing was taken.
    fn next(&mut self, buf: &mut [u8]) -> Result<Arrival, Failed>
        ensures within { IfOk result (InBuffer (length buf.new)) }
        ensures tells { Takes told tells self.old self.new buf.new result }
        ensures cause { HasCause (taking_faults self.old) (taking_faults self.new) result }
        ensures other { sending_faults self.new ≡ sending_faults self.old };

    /// Sends all of the bytes on the connection, or fails.
    fn send(&mut self, conn: u32, bytes: &[u8]) -> Result<(), Failed>
        ensures tells { Calls told tells self.old self.new (send conn bytes.now (is_ok result)) }
        ensures cause { HasCause (sending_faults self.old) (sending_faults self.new) result }
        ensures other { taking_faults self.new ≡ taking_faults self.old };

    /// Closes the connection.
    fn close(&mut self, conn: u32)
        ensures tells { Calls told tells self.old self.new (close conn) }
        ensures taking { taking_faults self.new ≡ taking_faults self.old }
        ensures sending { sending_faults self.new ≡ sending_faults self.old };
}
