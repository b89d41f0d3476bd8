//! The field of 256 elements that the erasure code computes in, and the sums of its rows.
//!
//! `Gf` is an element, `Tables` the products by one factor, and `mul_add` adds a row times a factor to
//! another row, 32 bytes at a time.
//!
//!     mul_add(&mut sum, factor, &row);
//!
//! Definitions: `specs/Gf.antt` and its neighbours: polynomials over two elements modulo
//! x^8 + x^4 + x^3 + x^2 + 1.
//!
//! Proved: `plus` and `times` are those of the polynomials; the laws of a field hold (`Field`); each
//! entry of the tables is the field's product (`Tables::times`); a row times a factor is added to
//! another, for every length (`mul_add`), and by doublings and of four rows in one pass the same comes
//! out (`mul_add_by_doublings`, `mul_add_four`). Tested besides against products made outside.
#![tactic(auto)]

mod field;
mod gf;
mod lanes;
mod products;
mod row;
mod tables;
mod terms;

pub use field::Field;
pub use gf::Gf;
pub use row::{Product, mul_add, mul_add_by_doublings, mul_add_four};
pub use tables::Tables;

#[cfg(test)]
mod tests;
