//! The end of the block in which a head stands.

ghost use Rattle.std.specs.Prelude.{◌≡◌, ◌+◌, ◌<◌, ◌≤◌, ◌++◌, ℕ, false, IsTrue, IfSome, IfNone, length, take};
ghost use Rattle.hy_cwire.specs.Block.{ends_head};

/// The most bytes of a head.
pub const MAX_HEAD: usize = 8_192;

/// CR LF CR LF: the end of the last line, and an empty line.
const END_OF_HEAD: [u8; 4] = *b"\r\n\r\n";

/// How many bytes of the piece belong to the block, of which these bytes came before; none where it
/// does not end in the piece.
pub(crate) fn end_in(before: &[u8], piece: &[u8]) -> Option<usize>
    ensures within { IfSome result (λ end. (0 < end) × (end ≤ length piece.now)) }
    ensures ends { IfSome result (λ end. IsTrue (ends_head (before.now ++ take end piece.now))) }
    ensures first { IfSome result (λ end. (n : ℕ) → 0 < n → n < end
        → ends_head (before.now ++ take n piece.now) ≡ false) }
    ensures none { IfNone result ((n : ℕ) → 0 < n → n ≤ length piece.now
        → ends_head (before.now ++ take n piece.now) ≡ false) }
{
    for i in 0..piece.len() {
        if piece[i] == b'\n' && ends_block(before, &piece[..i + 1]) {
            return Some(i + 1);
        }
    }
    None
}

/// Whether the bytes end a head.
fn ends_block(before: &[u8], piece: &[u8]) -> bool
    ensures { result ≡ ends_head (before.now ++ piece.now) }
{
    let (first, last) = END_OF_HEAD.split_at(4 - piece.len().min(4));
    before.ends_with(first) && piece.ends_with(last)
}
