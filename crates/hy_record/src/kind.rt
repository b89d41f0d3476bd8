//! The three kinds of records.

ghost use Rattle.std.specs.Prelude.{◌≡◌, ◌≤◌};
ghost use Rattle.std.specs.Bool.{OnTrue};
ghost use Rattle.hy_record.specs.Record.{is_part_count, hash_count};
ghost use Rattle.hy_record.specs.Spelling.{kind_byte};

use hy_base::{MAX_F, MAX_K, cloud_count};

/// What a record stands for.
#[derive(Clone, Copy, Debug, PartialEq, Eq)]
pub enum Kind {
    /// The key was deleted.
    Tomb,
    /// Each cloud that the record lists holds the whole value.
    Whole,
    /// Each cloud that the record lists holds a fragment of the value.
    Coded,
}

impl Kind {
    /// The byte that names the kind in a record's spelling.
    pub(crate) fn byte(self) -> u8
        ensures { result ≡ kind_byte self }
    {
        match self {
            Kind::Tomb => 0,
            Kind::Whole => 1,
            Kind::Coded => 2,
        }
    }

    /// Whether a value of this kind can be cut into so many parts.
    pub(crate) fn allows_parts(self, k: u8) -> bool
        ensures value { result ≡ is_part_count self k }
        ensures few { OnTrue result (k ≤ MAX_K) }
    {
        match self {
            Kind::Tomb => k == 0,
            Kind::Whole => k == 1,
            Kind::Coded => 2 <= k && k <= MAX_K,
        }
    }

    /// How many hashes a record of this kind has.
    pub(crate) fn hash_count(self, f: u8, k: u8) -> u8
        requires faults { f ≤ MAX_F }
        requires parts { k ≤ MAX_K }
        ensures { result ≡ hash_count self f k }
    {
        match self {
            Kind::Tomb => 0,
            Kind::Whole => 1,
            Kind::Coded => cloud_count(f, k),
        }
    }
}
