//! The clouds that a set names.

ghost use Rattle.std.specs.Prelude.{◌≡◌, ◌==◌, ◌<◌, IfOk};
ghost use Rattle.std.specs.Int.{bit_at};
ghost use Rattle.hy_record.specs.Clouds.{clouds_of};

use hy_base::NoMemory;
use std::alloc::Global;

/// Whether the cloud is of the set.
fn has(set: u16, cloud: u8) -> bool
    requires { cloud < 16 }
    ensures { result ≡ (bit_at set cloud == 1) }
{
    (set >> cloud) & 1 == 1
}

/// The clouds of a set, in increasing order.
#[tactic(auto, unfolding(hy_record::specs::Clouds::clouds_of))]
pub fn clouds_of(alloc: Global, set: u16) -> Result<Vec<u8>, NoMemory>
    ensures { IfOk result (λ clouds. clouds.items ≡ clouds_of set) }
{
    let mut clouds = Vec::new(alloc);
    for cloud in 0..16u8 {
        if has(set, cloud) {
            clouds.push(cloud)?;
        }
    }
    Ok(clouds)
}
