//! A sink into memory that was reserved before.

ghost use Rattle.std.specs.Prelude.{◌≡◌, ◌↔◌, Some, length, IsErr, IfOk};
ghost use Rattle.std.specs.Io.KnownBytes.{WriteAppends};
ghost use Rattle.hy_base.specs.Faults.{HasCause};
ghost use Rattle.hy_base.specs.Sink.{WritesSome};
ghost use Rattle.hy_base.specs.MemorySink.{fresh_output, output_after, RefusesPiece};

use crate::calls::{Calls, fault};
use crate::failure::{Failed, NoMemory};
use crate::sink::Sink;
use std::alloc::Global;
use std::marker::Model;

/// Bytes that were written, with room for so many, where chosen writes fail.
#[derive(Debug, Drop)]
pub struct BytesOut {
    bytes: Vec<u8>,
    room: usize,
    calls: Calls,
    faults: u64,
}

impl Model for BytesOut {
    ghost use Rattle.std.specs.Prelude.{◌≤◌, vec_len, vec_capacity};
    ghost use Rattle.hy_base.specs.MemorySink.{MemoryOutput};

    ghost Value = { MemoryOutput };

    ghost view = { λ output. record {
      written = output.bytes.items;
      room = output.room;
      failing = output.calls.failing.items;
      calls = output.calls.made;
      faults = output.faults;
    } };

    ghost invariant = { λ output.
        (vec_len output.bytes ≤ output.room) × (output.room ≤ vec_capacity output.bytes) };
}

impl BytesOut {
    /// Nothing written yet, with memory reserved for `room` bytes.
    ///
    /// The writes fail whose numbers, counted from 1, are in `failing`.
    pub fn new(alloc: Global, room: usize, failing: Vec<u32>) -> Result<BytesOut, NoMemory>
        ensures { IfOk result (λ output. output ≡ fresh_output room failing.items) }
    {
        let bytes = Vec::with_capacity(alloc, room)?;
        Ok(BytesOut {
            bytes,
            room,
            calls: Calls::new(failing),
            faults: 0,
        })
    }

    /// The bytes written so far.
    pub fn written(&self) -> &[u8]
        ensures { result.now ≡ self.now.written }
    {
        &self.bytes
    }
}

impl Sink for BytesOut {
    ghost written = { λ output. Some output.written };

    ghost faults = { λ output. output.faults };

    /// A piece that is longer than the room left fails whole. No write takes memory.
    fn write(&mut self, piece: &[u8]) -> Result<usize, Failed>
        ensures count { WritesSome (length piece.now) result }
        ensures appends { WriteAppends (Some self.old.written) (Some self.new.written) result
            piece.now }
        ensures cause { HasCause self.old.faults self.new.faults result }
        ensures fails { IsErr result ↔ RefusesPiece self.old piece.now }
        ensures whole { IfOk result (λ count. count ≡ length piece.now) }
        ensures after { self.new ≡ output_after self.old piece.now result }
    {
        if self.calls.next_fails() || piece.len() > self.room - self.bytes.len() {
            return Err(fault(&mut self.faults));
        }
        self.bytes.extend_from_slice(piece).unwrap();
        Ok(piece.len())
    }
}
