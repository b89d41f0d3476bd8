//! Running an operation over a net.

ghost use Rattle.std.specs.Prelude.{◌≡◌, ◌≤◌, IfOk, IsErrOf, ◌⊎◌};
ghost use Rattle.hy_base.specs.Faults.{Rose};
ghost use Rattle.hy_base.specs.Net.{Adds};
ghost use Rattle.hy_base.specs.Shape.{IsShape};
ghost use Rattle.hy_drive.specs.Role.{Drives, IsDrivable, Suits};
ghost use Rattle.hy_drive.specs.Standing.{IsResting};
ghost use Rattle.hy_drive.specs.Stepping.{Joins, Closes, PlaysOn, OnLarge};
ghost use Rattle.hy_drive.specs.declared.fault.DriveFault.TheVariants as faults;

use crate::driver::Driver;
use crate::fault::DriveFault;
use crate::job::Job;
use crate::settling::settle;
use hy_base::Net;
use hy_mwire::{Message, encode};
use hy_record::Reply;
use hy_serve::buffer;
use std::alloc::Global;

/// Runs the job's action over the net: its reply, unless so many arrivals were taken before.
///
/// It joins the metadata service, and sends each request to a cloud on a connection of its own. An
/// answer of a cloud that could not be had or read is handed to the client as such.
pub fn drive_client<N: Net>(
    net: &mut N,
    alloc: Global,
    job: &Job,
    arrivals: u32,
) -> Result<Reply, DriveFault>
    requires shape { IsShape job.now.f job.now.k }
    requires drives { IsDrivable job.now.action }
    requires ports { job.now.clouds ≤ 65520 }
    ensures plays { Adds N.told N.tells net.old net.new (Drives job.now arrivals
        (Rose (N.taking_faults net.old) (N.taking_faults net.new))
        result) }
    ensures suits { IfOk result (Suits job.now.action) }
    ensures large { OnLarge job.now result }
    ensures fault { IsErrOf result faults.NetFault
        → Rose (N.taking_faults net.old) (N.taking_faults net.new)
        ⊎ Rose (N.sending_faults net.old) (N.sending_faults net.new) }
    ensures kept { ¬ IsErrOf result faults.NetFault
        → N.taking_faults net.new ≡ N.taking_faults net.old }
{
    let mut buf = buffer(alloc)?;
    let conn = join(net, alloc, job)?;
    let mut driver = Driver::new(alloc, conn)?;
    drive_over(net, alloc, job, arrivals, &mut driver, &mut buf)
}

/// Dials the service, and asks it for a session.
fn join<N: Net>(net: &mut N, alloc: Global, job: &Job) -> Result<u32, DriveFault>
    ensures plays { Adds N.told N.tells net.old net.new (Joins job.now result) }
    ensures large { OnLarge job.now result }
    ensures taking { N.taking_faults net.new ≡ N.taking_faults net.old }
    ensures sending { N.sending_faults net.old ≤ N.sending_faults net.new }
    ensures fault { IsErrOf result faults.NetFault
        → Rose (N.sending_faults net.old) (N.sending_faults net.new) }
{
    let frame = encode(alloc, &Message::Join)?;
    let conn = net.dial(job.meta)?;
    net.send(conn, frame.bytes())?;
    Ok(conn)
}

/// The same, from where Join was sent.
fn drive_over<N: Net>(
    net: &mut N,
    alloc: Global,
    job: &Job,
    arrivals: u32,
    driver: &mut Driver,
    buf: &mut [u8],
) -> Result<Reply, DriveFault>
    requires shape { IsShape job.now.f job.now.k }
    requires drives { IsDrivable job.now.action }
    requires ports { job.now.clouds ≤ 65520 }
    requires rests { IsResting job.now driver.old }
    ensures plays { Adds N.told N.tells net.old net.new (PlaysOn job.now driver.old arrivals
        (Rose (N.taking_faults net.old) (N.taking_faults net.new))
        result) }
    ensures suits { IfOk result (Suits job.now.action) }
    ensures large { OnLarge job.now result }
    ensures fault { IsErrOf result faults.NetFault
        → Rose (N.taking_faults net.old) (N.taking_faults net.new)
        ⊎ Rose (N.sending_faults net.old) (N.sending_faults net.new) }
    ensures kept { ¬ IsErrOf result faults.NetFault
        → N.taking_faults net.new ≡ N.taking_faults net.old }
{
    for _taken in 0..arrivals {
        let arrival = net.next(buf)?;
        let done = driver.take(alloc, arrival, buf)?;
        close_done(net, done);
        match settle(net, alloc, job, driver)? {
            Some(reply) => return Ok(reply),
            None => {}
        }
    }
    Err(driver.not_yet())
}

/// Closes the connection that gave its answer, if one did.
fn close_done<N: Net>(net: &mut N, done: Option<u32>)
    ensures plays { Adds N.told N.tells net.old net.new (Closes done) }
    ensures taking { N.taking_faults net.new ≡ N.taking_faults net.old }
    ensures sending { N.sending_faults net.new ≡ N.sending_faults net.old }
{
    if let Some(conn) = done {
        net.close(conn);
    }
}
