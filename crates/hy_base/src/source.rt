//! Where input comes from.

ghost use Rattle.std.specs.Prelude.{List, ℕ, Option, length};
ghost use Rattle.std.specs.Io.KnownBytes.{ReadConsumes};
ghost use Rattle.hy_base.specs.Faults.{HasCause};
ghost use Rattle.hy_base.specs.Source.{ReadsAtMost};

use crate::failure::Failed;

/// An input that is read piece by piece.
pub trait Source {
    /// The bytes that are left to read, where the source tells them.
    ghost left: { Self → Option (List ℕ) };

    /// How often a read failed so far.
    ghost faults: { Self → ℕ };

    /// Reads into the front of the buffer, and answers how many bytes; 0 for a buffer that is not empty is the end.
    ///
    /// A read that fails takes nothing, and is counted.
    fn read(&mut self, buf: &mut [u8]) -> Result<usize, Failed>
        ensures count { ReadsAtMost (length buf.old) result }
        ensures takes { ReadConsumes (left self.old) (left self.new) result buf.new }
        ensures cause { HasCause (faults self.old) (faults self.new) result };
}
