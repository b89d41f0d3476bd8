//! Commands on a key of a store.

ghost use Rattle.std.specs.Prelude.{◌≡◌, ◌≤◌, false, None};
ghost use Rattle.hy_base.specs.Source.{source_use};
ghost use Rattle.hy_record.specs.Key.{is_cell};
ghost use Rattle.hy_drive.specs.Going.{too_large};
ghost use Rattle.hy_drive.specs.Role.{IsDrivable};
ghost use Rattle.hy_top.specs.NetUse.{net_use};
ghost use Rattle.hy_top.specs.Operate.{Operates, Puts, job_of};
ghost use Rattle.hy_words.specs.Words.{IsRequest};

use crate::input::read_value;
use crate::reply::reply_text;
use crate::status::Status;
use hy_base::{Blob, Net, Source};
use hy_drive::{Job, drive_client};
use hy_record::Action;
use hy_words::Request;
use std::alloc::Global;

/// Puts the input under the key.
pub(crate) fn put_input<S: Source, N: Net>(
    alloc: Global,
    request: &Request,
    input: &mut S,
    net: &mut N,
) -> Result<Blob, Status>
    requires request { IsRequest request.now }
    requires plain { is_cell request.now.key ≡ false }
    ensures puts { Puts request.now (source_use S.left S.faults input.old input.new)
        (net_use N.told N.tells N.taking_faults N.sending_faults net.old net.new) result }
    ensures reads { S.faults input.old ≤ S.faults input.new }
{
    let value = read_value(alloc, input)?;
    let key = request.key;
    operate(alloc, request, Action::Put { key, value }, net)
}

/// What the store answers to the action.
pub(crate) fn operate<N: Net>(
    alloc: Global,
    request: &Request,
    action: Action,
    net: &mut N,
) -> Result<Blob, Status>
    requires request { IsRequest request.now }
    requires small { too_large action ≡ None }
    requires drives { IsDrivable action }
    ensures { Operates (job_of request.now action) request.now.arrivals
        (net_use N.told N.tells N.taking_faults N.sending_faults net.old net.new) result }
{
    let job = Job {
        f: request.f,
        k: request.k,
        meta: request.meta,
        clouds: request.clouds,
        action,
    };
    let reply = drive_client(net, alloc, &job, request.arrivals)?;
    reply_text(alloc, reply)
}
