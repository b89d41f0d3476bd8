//! Worked values of the formats: hashes, products, fragments, names, records and frames.
//!
//!     let text = vectors(alloc)?;
//!
//! `vectors` computes them when they are asked for, a line each; the command of that name prints them.
//! Definitions: `specs/` spell the whole text.
//!
//! Proved: the text is that of the definitions (`vectors`). That the values are those that were made
//! outside, a test and an example show.
#![tactic(auto)]

mod codes;
mod spellings;
mod text;

pub use text::vectors;

#[cfg(test)]
mod tests;
