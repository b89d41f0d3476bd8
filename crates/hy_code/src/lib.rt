//! Values cut into fragments, one a cloud, of which any few rebuild the value.
//!
//! `split` cuts a value into `Fragments`; `rebuild` makes it of `Pick`s, a fragment with its number each,
//! or says why it cannot (`RebuildFault`).
//!
//!     let fragments = split(alloc, value, f, k)?;
//!
//! Definitions: `specs/` (`fragment_of`: at each place the one polynomial of degree below k through the
//! value's parts).
//!
//! Proved: fragment i has at each place the polynomial's value at i (`split`), and there is exactly one
//! such polynomial (`one_polynomial`); rebuilding refuses exactly what it should, in order (`refused`,
//! `only_refused`), and of any k fragments of a value with different numbers it gives the value
//! (`rebuilt`, `any_parts`). Such fragments are never refused, each has the fragment size, and of a value
//! that is one part each is the value (`laws.rt`). Tested besides against vectors made outside.
#![tactic(auto)]

mod block;
mod fault;
mod fragments;
mod laws;
mod parts;
mod pick;
mod polynomials;
mod rebuilding;

pub use fault::RebuildFault;
pub use fragments::{Fragments, split};
pub use laws::{
    any_parts_rebuild, fragments_are_not_refused, fragments_have_the_fragment_size,
    one_part_is_the_value, one_polynomial,
};
pub use pick::Pick;
pub use rebuilding::rebuild;

#[cfg(test)]
mod tests;
