//! What a client does between two arrivals.

ghost use Rattle.std.specs.Prelude.{◌≡◌, ◌≤◌, IsErrOf, IfOk};
ghost use Rattle.hy_base.specs.Faults.{Rose};
ghost use Rattle.hy_base.specs.Net.{Adds};
ghost use Rattle.hy_base.specs.Shape.{IsShape};
ghost use Rattle.hy_drive.specs.Role.{IsDrivable};
ghost use Rattle.hy_drive.specs.Standing.{IsSome};
ghost use Rattle.hy_drive.specs.Stepping.{Goes, GoesSoundly, Settles, SettlesSoundly};
ghost use Rattle.hy_drive.specs.declared.fault.DriveFault.TheVariants as faults;

use crate::asking::send_out;
use crate::driver::{Driver, Next};
use crate::fault::DriveFault;
use crate::job::Job;
use hy_base::Net;
use hy_record::Reply;
use std::alloc::Global;

/// Does what is to be done, until nothing is or there is a reply.
///
/// A message takes bytes of the stream, an input takes itself, and an answer that could not be had
/// makes a client send few requests, so that this comes to its end long before its last step.
pub(crate) fn settle<N: Net>(
    net: &mut N,
    alloc: Global,
    job: &Job,
    driver: &mut Driver,
) -> Result<Option<Reply>, DriveFault>
    requires shape { IsShape job.now.f job.now.k }
    requires drives { IsDrivable job.now.action }
    requires ports { job.now.clouds ≤ 65520 }
    requires stands { IsSome job.now driver.old }
    ensures plays { Adds N.told N.tells net.old net.new
        (Settles job.now driver.old driver.new result) }
    ensures sound { SettlesSoundly job.now driver.new result }
    ensures taking { N.taking_faults net.new ≡ N.taking_faults net.old }
    ensures sending { N.sending_faults net.old ≤ N.sending_faults net.new }
    ensures fault { IsErrOf result faults.NetFault
        → Rose (N.sending_faults net.old) (N.sending_faults net.new) }
{
    for _step in 0..u64::MAX {
        match go(net, alloc, job, driver)? {
            Step::More => {}
            Step::Idle => return Ok(None),
            Step::Replied(reply) => return Ok(Some(reply)),
        }
    }
    Err(DriveFault::NoMemory)
}

/// What a step came to.
#[derive(Drop)]
pub(crate) enum Step {
    /// More may follow.
    More,
    /// Nothing is to be done but to wait.
    Idle,
    /// The operation has its reply.
    Replied(Reply),
}

/// Does what is to be done next.
fn go<N: Net>(
    net: &mut N,
    alloc: Global,
    job: &Job,
    driver: &mut Driver,
) -> Result<Step, DriveFault>
    requires shape { IsShape job.now.f job.now.k }
    requires drives { IsDrivable job.now.action }
    requires ports { job.now.clouds ≤ 65520 }
    requires stands { IsSome job.now driver.old }
    ensures plays { Adds N.told N.tells net.old net.new (Goes job.now driver.old driver.new result) }
    ensures sound { GoesSoundly job.now driver.new result }
    ensures taking { N.taking_faults net.new ≡ N.taking_faults net.old }
    ensures sending { N.sending_faults net.old ≤ N.sending_faults net.new }
    ensures fault { IsErrOf result faults.NetFault
        → Rose (N.sending_faults net.old) (N.sending_faults net.new) }
{
    match driver.next(alloc, job)? {
        Next::Send(out) => {
            send_out(net, alloc, job, driver, out)?;
            Ok(Step::More)
        }
        Next::Again => Ok(Step::More),
        Next::Idle => Ok(Step::Idle),
        Next::Replied(reply) => Ok(Step::Replied(reply)),
    }
}
