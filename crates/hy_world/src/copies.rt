//! Copies of what events carry.

ghost use Rattle.std.specs.Prelude.{◌≡◌, IfOk};

use hy_base::{Blob, NoMemory};
use hy_record::CloudSay;
use std::alloc::Global;

/// A copy of a cloud's answer.
pub(crate) fn copy_of_say(alloc: Global, say: &CloudSay) -> Result<CloudSay, NoMemory>
    ensures { IfOk result (λ copy. copy ≡ say.now) }
{
    match say {
        CloudSay::Stored { fresh } => Ok(CloudSay::Stored { fresh: *fresh }),
        CloudSay::Conflict => Ok(CloudSay::Conflict),
        CloudSay::Body(blob) => Ok(CloudSay::Body(Blob::copy_of(alloc, blob.bytes())?)),
        CloudSay::Missing => Ok(CloudSay::Missing),
        CloudSay::Gone => Ok(CloudSay::Gone),
        CloudSay::Bad(status) => Ok(CloudSay::Bad(*status)),
    }
}
