//! SHA-256, by which the bytes that a cloud answers are verified.

ghost use Rattle.std.specs.Prelude.{◌≡◌};
ghost use Rattle.sha2.specs.Sha256.{sha256};
ghost use Rattle.hy_record.specs.Hash.{IsHash};

use sha2::{Digest, Sha256};
use std::marker::Model;

/// A SHA-256 hash: 32 bytes.
#[derive(Clone, Copy, Debug, PartialEq, Eq, PartialOrd, Ord)]
pub struct Hash([u8; 32]);

impl Model for Hash {
    ghost use Rattle.std.specs.Prelude.{List, ℕ};
    ghost use Rattle.hy_record.specs.Hash.{IsHash};

    ghost Value = { List ℕ };

    ghost view = { λ hash. hash.0 };

    ghost invariant = { λ hash. IsHash hash.0 };

    ghost inverse = { λ bytes. record { 0 = bytes } };
}

impl Hash {
    /// The hash with these bytes.
    pub fn of(bytes: [u8; 32]) -> Hash
        ensures { result ≡ bytes }
    {
        Hash(bytes)
    }

    /// The bytes, in order.
    pub fn bytes(&self) -> &[u8]
        ensures value { result.now ≡ self.now }
        ensures size { IsHash result.now }
    {
        &self.0
    }

    /// This hash, and that it has the bytes of one.
    pub(crate) fn known(self) -> Hash
        ensures same { result ≡ self }
        ensures size { IsHash result }
    {
        let Hash(bytes) = self;
        Hash(bytes)
    }
}

/// The SHA-256 hash of the bytes (FIPS 180-4).
pub fn sha(bytes: &[u8]) -> Hash
    ensures { result ≡ sha256 bytes.now }
{
    Hash(Sha256::digest(bytes))
}
