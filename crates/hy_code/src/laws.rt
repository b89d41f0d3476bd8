//! Laws of the definitions that fragments are stated by.

ghost use Rattle.std.specs.Prelude.{◌≡◌, ◌<◌, ℕ, List, None, length, take};
ghost use Rattle.hy_base.specs.Shape.{fragment_size};
ghost use Rattle.hy_code.specs.Fragments.{AnyPartsRebuild, AreFragments, fragment_of};
ghost use Rattle.hy_code.specs.Polynomial.{OnePolynomial};
ghost use Rattle.hy_code.specs.Refusal.{refusal};
ghost use Rattle.hy_code.specs.declared.pick.Pick.{Pick};
ghost use Rattle.hy_gf.specs.Gf.{IsElement, gf};

/// Exactly one polynomial of degree below k has given bytes at k different places.
pub fn one_polynomial()
    ensures { OnePolynomial IsElement gf }
{}

/// Each fragment of a value has the fragment size.
pub fn fragments_have_the_fragment_size()
    ensures { (value : List ℕ) (k i : ℕ) → length (fragment_of value k i) ≡ fragment_size (length value) k }
{}

/// Each fragment of a value that is one part is the value.
pub fn one_part_is_the_value()
    ensures { (value : List ℕ) (i : ℕ) → i < 256 → fragment_of value 1 i ≡ value }
{}

/// Fragments of a value from different clouds are not refused.
pub fn fragments_are_not_refused()
    ensures { (value : List ℕ) (k : ℕ) (picks : List Pick) → AreFragments value k (take k picks) → refusal (length value) k picks ≡ None }
{}

/// Any k fragments of a value, of different clouds, rebuild it.
pub fn any_parts_rebuild()
    ensures { AnyPartsRebuild }
{}
