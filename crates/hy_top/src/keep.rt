//! What a keeper answers to the frames that the input is.

ghost use Rattle.std.specs.Prelude.{◌≤◌, length};
ghost use Rattle.hy_base.specs.declared.limits.TheConstants.{MAX_INPUT};
ghost use Rattle.hy_top.specs.Keep.{Keeps};

use crate::status::Status;
use hy_base::Blob;
use hy_journal::{kept_answers, read_requests};
use std::alloc::Global;

/// The frames of a keeper's answers, over a new disk whose call of this number fails; 0 is for none.
pub(crate) fn keep_frames(alloc: Global, stop: u32, frames: Blob) -> Result<Blob, Status>
    requires { length frames ≤ MAX_INPUT }
    ensures { Keeps stop frames result }
{
    let requests = read_requests(alloc, frames.bytes())?;
    drop(frames);
    let output = kept_answers(alloc, stop, &requests)?;
    Ok(Blob::of(output))
}
