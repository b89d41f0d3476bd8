//! Where output goes to.

ghost use Rattle.std.specs.Prelude.{List, ℕ, Option, length};
ghost use Rattle.std.specs.Io.KnownBytes.{WriteAppends};
ghost use Rattle.hy_base.specs.Faults.{HasCause};
ghost use Rattle.hy_base.specs.Sink.{WritesSome};

use crate::failure::Failed;

/// An output that is written piece by piece.
pub trait Sink {
    /// The bytes written so far, where the sink tells them.
    ghost written: { Self → Option (List ℕ) };

    /// How often a write failed so far.
    ghost faults: { Self → ℕ };

    /// Writes a front of the piece, and answers how many bytes: at least one of a piece that is not empty.
    ///
    /// A write that fails writes nothing, and is counted.
    fn write(&mut self, piece: &[u8]) -> Result<usize, Failed>
        ensures count { WritesSome (length piece.now) result }
        ensures appends { WriteAppends (written self.old) (written self.new) result piece.now }
        ensures cause { HasCause (faults self.old) (faults self.new) result };
}
