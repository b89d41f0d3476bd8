//! A source over bytes in memory.

ghost use Rattle.std.specs.Prelude.{◌≡◌, ◌≤◌, ◌↔◌, Some, length, IsErr, IfOk};
ghost use Rattle.std.specs.Io.KnownBytes.{ReadConsumes};
ghost use Rattle.hy_base.specs.Faults.{HasCause, FailsNext};
ghost use Rattle.hy_base.specs.Source.{ReadsAtMost};
ghost use Rattle.hy_base.specs.MemorySource.{fresh_input, given_count, input_after};

use crate::blob::Blob;
use crate::calls::{Calls, fault};
use crate::failure::Failed;
use crate::source::Source;
use std::marker::Model;

/// Bytes that are read in pieces, where chosen reads fail.
#[derive(Debug, Drop)]
pub struct BytesIn {
    bytes: Blob,
    at: usize,
    cut: usize,
    calls: Calls,
    faults: u64,
}

impl Model for BytesIn {
    ghost use Rattle.std.specs.Prelude.{◌≤◌, length, drop};
    ghost use Rattle.hy_base.specs.MemorySource.{MemoryInput};

    ghost Value = { MemoryInput };

    ghost view = { λ input. record {
      rest = drop input.at input.bytes;
      cut = input.cut;
      failing = input.calls.failing.items;
      calls = input.calls.made;
      faults = input.faults;
    } };

    ghost invariant = { λ input. (input.at ≤ length input.bytes) × (1 ≤ input.cut) };
}

impl BytesIn {
    /// All of these bytes, at most `cut` of them per read.
    ///
    /// The reads fail whose numbers, counted from 1, are in `failing`.
    pub fn new(bytes: Blob, cut: usize, failing: Vec<u32>) -> BytesIn
        requires { 1 ≤ cut }
        ensures { result ≡ fresh_input bytes cut failing.items }
    {
        BytesIn {
            bytes,
            at: 0,
            cut,
            calls: Calls::new(failing),
            faults: 0,
        }
    }
}

impl Source for BytesIn {
    ghost left = { λ input. Some input.rest };

    ghost faults = { λ input. input.faults };

    fn read(&mut self, buf: &mut [u8]) -> Result<usize, Failed>
        ensures count { ReadsAtMost (length buf.old) result }
        ensures takes { ReadConsumes (Some self.old.rest) (Some self.new.rest) result buf.new }
        ensures cause { HasCause self.old.faults self.new.faults result }
        ensures fails { IsErr result ↔ FailsNext self.old.failing self.old.calls }
        ensures gives { IfOk result (λ count. count ≡ given_count self.old (length buf.old)) }
        ensures after { self.new ≡ input_after self.old result }
    {
        if self.calls.next_fails() {
            return Err(fault(&mut self.faults));
        }
        let rest = &self.bytes.bytes()[self.at..];
        let count = self.cut.min(buf.len().min(rest.len()));
        buf[..count].copy_from_slice(&rest[..count]);
        self.at += count;
        Ok(count)
    }
}
