//! What an order of a key is found to be.

ghost use Rattle.std.specs.Prelude.{◌≡◌};

/// What an order of a key is found to be: legal, or the first violation in the order of these cases.
#[derive(Clone, Copy, Debug, PartialEq, Eq)]
pub enum Verdict {
    /// It is a linearization.
    Legal,
    /// This finished put, get, delete or swap of the key is not listed, and none with a lower number.
    Missing(u32),
    /// This listed number is the first that is of no operation, or of one that an order of the key may
    /// not list.
    Stranger(u32),
    /// This number is listed a second time, and none is before.
    Twice(u32),
    /// The second is the first listed operation after which one stands that returned before it was
    /// invoked; the first is the first such one.
    Early(u32, u32),
    /// This get or swap is the first that tells another value, or another timestamp, than the last write
    /// before it left.
    Wrong(u32),
}

impl Verdict {
    ghost use Rattle.hy_order.specs.Violation.{is_legal};

    /// Whether it is the verdict on a linearization.
    pub fn is_legal(&self) -> bool
        ensures { result ≡ is_legal self.now }
    {
        matches!(self, Verdict::Legal)
    }
}
