//! Rows of bytes in one piece of memory.

ghost use Rattle.std.specs.Prelude.{◌≡◌, ◌<◌, ◌*◌, [], length, slice_index_or};
ghost use Rattle.hy_code.specs.Block.{rows_of};

use std::marker::Model;

/// Rows of one length, one behind another.
#[derive(Debug, Drop)]
pub(crate) struct Block {
    bytes: Vec<u8>,
    size: usize,
    count: usize,
}

impl Model for Block {
    ghost use Rattle.std.specs.Prelude.{◌≡◌, ◌*◌, List, ℕ, length};
    ghost use Rattle.hy_code.specs.Block.{rows_of};

    ghost Value = { List (List ℕ) };

    ghost view = { λ block. rows_of block.count block.size block.bytes.items };

    ghost invariant = { λ block. length block.bytes.items ≡ block.count * block.size };
}

impl Block {
    /// So many rows of this size, which the bytes are.
    pub(crate) fn of(bytes: Vec<u8>, size: usize, count: usize) -> Block
        requires { length bytes.items ≡ count * size }
        ensures { result ≡ rows_of count size bytes.items }
    {
        Block { bytes, size, count }
    }

    /// A row.
    pub(crate) fn get(&self, i: usize) -> &[u8]
        requires { i < length self.now }
        ensures { result.now ≡ slice_index_or self.now i [] }
    {
        let start = i * self.size;
        &self.bytes[start..start + self.size]
    }
}
