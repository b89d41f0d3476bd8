//! The length that a field gives.

ghost use Rattle.std.specs.Prelude.{◌≡◌};
ghost use Rattle.hy_cwire.specs.Lengths.{length_of};

/// The number that one or more digits spell, or the greatest of 64 bits where it is greater.
pub(crate) fn length_of(value: &[u8]) -> Option<u64>
    ensures { result ≡ length_of value.now }
{
    let mut length = 0u64;
    for byte in value {
        if !byte.is_ascii_digit() {
            return None;
        }
        length = length
            .saturating_mul(10)
            .saturating_add(u64::from(*byte - b'0'));
    }
    (!value.is_empty()).then_some(length)
}
