//! An element of the field of 256 elements, which contracts see as its byte.

ghost use Rattle.std.specs.Prelude.{◌≡◌, ◌≢◌, ◌==◌, ℕ};
ghost use Rattle.hy_gf.specs.Gf.{IsElement, IsRemainder, gf, gf_sum, polynomial_product, gf_product, gf_inverse};
ghost use Rattle.hy_gf.specs.GfLaws.{gf_is_field};

use crate::field::Field;
use std::marker::Model;

/// The low byte of x^8 + x^4 + x^3 + x^2 + 1, the polynomial that products are reduced by.
pub(crate) const REDUCTION: u8 = 0x1D;

/// An element: the polynomial over bits whose coefficient of x^i is bit i of a byte.
#[derive(Clone, Copy, Debug, PartialEq, Eq)]
pub struct Gf(u8);

impl Model for Gf {
    ghost Value = { ℕ };

    ghost view = { λ element. element.0 };

    ghost inverse = { λ byte. record { 0 = byte } };
}

impl Gf {
    /// The element of a byte.
    pub const fn of(byte: u8) -> Gf
        ensures same { result ≡ byte }
        ensures element { IsElement result }
    {
        Gf(byte)
    }

    /// The byte of an element.
    pub const fn byte(self) -> u8
        ensures { result ≡ self }
    {
        self.0
    }

    /// The same value, of which the caller then knows that it is an element.
    pub fn known(self) -> Gf
        ensures same { result ≡ self }
        ensures element { IsElement result }
    {
        Gf(self.0)
    }

    /// The sum, which is the difference too.
    pub fn plus(self, other: Gf) -> Gf
        ensures sum { result ≡ gf_sum self other }
        ensures element { IsElement result }
    {
        Gf(self.0 ^ other.0)
    }

    /// The product, formed bit by bit from the highest power of the second factor on.
    pub fn times(self, other: Gf) -> Gf
        ensures product { result ≡ gf_product self other }
        ensures remainder { IsRemainder (polynomial_product 8 self other) result }
        ensures element { IsElement result }
    {
        let mut product = 0;
        for power in (0..8u32).rev() {
            product = doubled(product);
            if (other.0 >> power) & 1 == 1 {
                product ^= self.0;
            }
        }
        Gf(product)
    }

    /// The element whose product with this one is 1: its 254th power, since each element but 0 has 255th power 1.
    pub fn inverse(self) -> Gf
        requires { self ≢ 0 }
        ensures inverse { result ≡ gf_inverse self }
        ensures element { IsElement result }
    {
        let mut square = self;
        let mut inverse = Gf(1);
        for _doubling in 0..7u8 {
            square = square.times(square);
            inverse = inverse.times(square);
        }
        inverse
    }

    /// The quotient: its product with the other element is this one.
    pub fn over(self, other: Gf) -> Gf
        requires { other ≢ 0 }
        ensures quotient { result ≡ gf_product self (gf_inverse other) }
        ensures undoes { gf_product result other ≡ self }
        ensures element { IsElement result }
    {
        self.times(other.inverse())
    }
}

/// The product of x and the byte's polynomial.
pub(crate) fn doubled(byte: u8) -> u8
    ensures { result ≡ gf_product 2 byte }
{
    if byte < 128 {
        2 * byte
    } else {
        (2 * (byte - 128)) ^ REDUCTION
    }
}

impl Field for Gf {
    ghost is_element = { IsElement };

    ghost field = { gf };

    ghost laws = { gf_is_field };

    fn zero() -> Gf {
        Gf(0)
    }

    fn one() -> Gf {
        Gf(1)
    }

    fn plus(self, other: Gf) -> Gf {
        Gf::plus(self, other)
    }

    fn times(self, other: Gf) -> Gf {
        Gf::times(self, other)
    }

    fn inverse(self) -> Gf {
        Gf::inverse(self)
    }
}
