//! The shape of a store: how many faulty clouds it bears, and into how many parts a value is cut.

ghost use Rattle.std.specs.Prelude.{◌≡◌, ◌≤◌, ◌<◌, ◌^◌};
ghost use Rattle.hy_base.specs.Shape.{cloud_count, quorum_size, fragment_size};

/// The clouds of a store that bears `f` faulty ones and cuts values into `k` parts.
pub fn cloud_count(f: u8, k: u8) -> u8
    requires { cloud_count f k < 2 ^ 8 }
    ensures { result ≡ cloud_count f k }
{
    2 * f + k
}

/// The clouds that have to store a value before it counts as written.
pub fn quorum_size(f: u8, k: u8) -> u8
    requires { quorum_size f k < 2 ^ 8 }
    ensures { result ≡ quorum_size f k }
{
    f + k
}

/// The bytes of each fragment of a value of `size` bytes that is cut into `k` parts.
pub fn fragment_size(size: u32, k: u8) -> u32
    requires { 1 ≤ k }
    ensures { result ≡ fragment_size size k }
{
    size.div_ceil(k.into())
}
