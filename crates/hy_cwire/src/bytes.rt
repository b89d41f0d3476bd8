//! Bytes that come piece by piece.

ghost use Rattle.std.specs.Prelude.{◌≡◌, ◌≤◌, ◌++◌, [], length, take, IfOk, OnOk, OnErr};

use hy_base::NoMemory;
use std::alloc::Global;
use std::marker::Model;

/// The bytes that came so far.
#[derive(Debug, Drop)]
pub(crate) struct Bytes {
    held: Vec<u8>,
}

impl Model for Bytes {
    ghost use Rattle.std.specs.Prelude.{List, ℕ};

    ghost Value = { List ℕ };

    ghost view = { λ bytes. bytes.held.items };
}

impl Bytes {
    /// No bytes.
    pub(crate) fn new(alloc: Global) -> Bytes
        ensures { result ≡ [] }
    {
        Bytes {
            held: Vec::new(alloc),
        }
    }

    /// These bytes, with room for so many.
    pub(crate) fn with_room(alloc: Global, room: usize, piece: &[u8]) -> Result<Bytes, NoMemory>
        ensures { IfOk result (λ bytes. bytes ≡ piece.now) }
    {
        let mut held = Vec::with_capacity(alloc, room)?;
        held.extend_from_slice(piece)?;
        Ok(Bytes { held })
    }

    /// The bytes.
    pub(crate) fn get(&self) -> &[u8]
        ensures { result.now ≡ self.now }
    {
        &self.held
    }

    /// Adds a piece at the end.
    pub(crate) fn push(&mut self, piece: &[u8]) -> Result<(), NoMemory>
        ensures ok { OnOk result (self.new ≡ self.old ++ piece.now) }
        ensures err { OnErr result (self.new ≡ self.old) }
    {
        self.held.extend_from_slice(piece)?;
        Ok(())
    }

    /// Takes all but so many bytes away from the end.
    pub(crate) fn truncate(&mut self, count: usize)
        ensures { self.new ≡ take count self.old }
    {
        self.held.truncate(count);
    }

    /// The bytes, in the memory that they have.
    pub(crate) fn into_vec(self) -> Vec<u8>
        ensures { result.items ≡ self }
    {
        self.held
    }
}
