//! What an operation knows of the record of its key.

ghost use Rattle.std.specs.Prelude.{◌≡◌};
ghost use Rattle.hy_meta.specs.Service.{stamp_of_record};

use hy_record::{Record, Stamp};

/// The timestamp of the record; (0, 0) where there is none.
pub fn stamp_of(rec: &Option<Record>) -> Stamp
    ensures { result ≡ stamp_of_record rec.now }
{
    match rec {
        Some(rec) => rec.stamp(),
        None => Stamp::zero(),
    }
}
