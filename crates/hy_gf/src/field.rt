//! What a field is, as generic code may use it.

ghost use Rattle.std.specs.Prelude.{◌≡◌, ◌≢◌};
ghost use Rattle.hy_gf.specs.Field.{IsField, Operations};

/// A field in which each element is its own negative, so that a difference is a sum.
pub trait Field {
    ghost is_element: { Self → Type 0 };

    ghost field: { Operations Self };

    /// The element that adds nothing.
    fn zero() -> Self
        ensures { result ≡ field.zero };

    /// The element that a product keeps.
    fn one() -> Self
        ensures { result ≡ field.one };

    /// The sum, which is the difference too.
    fn plus(self, other: Self) -> Self
        ensures { result ≡ field.sum self other };

    /// The product.
    fn times(self, other: Self) -> Self
        ensures { result ≡ field.product self other };

    /// The element whose product with this one is one.
    fn inverse(self) -> Self
        requires { self ≢ field.zero }
        ensures { result ≡ field.inverse self };

    ghost laws: { IsField is_element field };
}
