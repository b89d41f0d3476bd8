//! Sets of clouds as numbers.

ghost use Rattle.std.specs.Prelude.{◌≡◌, ◌==◌, ◌<◌};
ghost use Rattle.std.specs.Int.{bit_at};

/// Whether the cloud is of the set: cloud i is bit i.
pub(crate) fn has_cloud(set: u16, cloud: u8) -> bool
    requires { cloud < 16 }
    ensures { result ≡ (bit_at set cloud == 1) }
{
    (set >> cloud) & 1 == 1
}
