//! Sending the messages of a client.

ghost use Rattle.std.specs.Prelude.{◌≡◌, ◌≤◌, IsErrOf, OnOk};
ghost use Rattle.hy_base.specs.Faults.{Rose};
ghost use Rattle.hy_base.specs.Net.{Adds};
ghost use Rattle.hy_cwire.specs.Writing.{IsSendableAct};
ghost use Rattle.hy_mwire.specs.Message.{IsFramedAsk};
ghost use Rattle.hy_drive.specs.Standing.{IsSome, IsSendableOut};
ghost use Rattle.hy_drive.specs.declared.job.Job.{Job as JobValue};
ghost use Rattle.hy_drive.specs.Stepping.{OnLarge, SendsOut, AsksService, AsksCloud, StandsOn};
ghost use Rattle.hy_drive.specs.declared.fault.DriveFault.TheVariants as faults;

use crate::driver::Driver;
use crate::errand::{Errand, kind_of};
use crate::fault::DriveFault;
use crate::job::Job;
use hy_base::Net;
use hy_cwire::write_ask;
use hy_mwire::{Message, encode};
use hy_record::{CloudAsk, MetaAsk, Out};
use std::alloc::Global;

/// Sends the message.
pub(crate) fn send_out<N: Net>(
    net: &mut N,
    alloc: Global,
    job: &Job,
    driver: &mut Driver,
    out: Out,
) -> Result<(), DriveFault>
    requires sendable { IsSendableOut out }
    requires ports { job.now.clouds ≤ 65520 }
    ensures plays { Adds N.told N.tells net.old net.new
        (SendsOut job.now driver.old driver.new out result) }
    ensures large { OnLarge job.now result }
    ensures stands { IsSome job.now driver.old → OnOk result (IsSome job.now driver.new) }
    ensures taking { N.taking_faults net.new ≡ N.taking_faults net.old }
    ensures sending { N.sending_faults net.old ≤ N.sending_faults net.new }
    ensures fault { IsErrOf result faults.NetFault
        → Rose (N.sending_faults net.old) (N.sending_faults net.new) }
{
    match out {
        Out::Meta(ask) => ask_service(net, alloc, driver, ask),
        Out::Cloud(ask) => ask_cloud(net, alloc, job, driver, &ask),
    }
}

/// Sends the message as one frame, while the service takes messages.
fn ask_service<N: Net>(
    net: &mut N,
    alloc: Global,
    driver: &Driver,
    ask: MetaAsk,
) -> Result<(), DriveFault>
    requires { IsFramedAsk ask }
    ensures plays { Adds N.told N.tells net.old net.new (AsksService driver.now ask result) }
    ensures large { (job : JobValue) → OnLarge job result }
    ensures taking { N.taking_faults net.new ≡ N.taking_faults net.old }
    ensures sending { N.sending_faults net.old ≤ N.sending_faults net.new }
    ensures fault { IsErrOf result faults.NetFault
        → Rose (N.sending_faults net.old) (N.sending_faults net.new) }
{
    match driver.service() {
        Some(conn) => {
            let frame = encode(alloc, &Message::Ask(ask))?;
            net.send(conn, frame.bytes())?;
            Ok(())
        }
        None => Ok(()),
    }
}

/// Sends the request on a connection of its own. Where it cannot be sent, its answer could not be
/// had.
fn ask_cloud<N: Net>(
    net: &mut N,
    alloc: Global,
    job: &Job,
    driver: &mut Driver,
    ask: &CloudAsk,
) -> Result<(), DriveFault>
    requires cloud { ask.now.cloud ≤ 15 }
    requires act { IsSendableAct ask.now.wish.act }
    requires ports { job.now.clouds ≤ 65520 }
    ensures plays { Adds N.told N.tells net.old net.new
        (AsksCloud job.now driver.old driver.new ask.now result) }
    ensures large { OnLarge job.now result }
    ensures stands { OnOk result (StandsOn driver.old driver.new) }
    ensures taking { N.taking_faults net.new ≡ N.taking_faults net.old }
    ensures sending { N.sending_faults net.old ≤ N.sending_faults net.new }
    ensures fault { IsErrOf result faults.NetFault → ⊥ }
{
    let port = job.clouds + u16::from(ask.cloud);
    let request = write_ask(alloc, &ask.wish, port)?;
    let errand = Errand::of(ask);
    match net.dial(port) {
        Ok(conn) => match net.send(conn, request.bytes()) {
            Ok(()) => {
                driver.await_answer(alloc, conn, errand, kind_of(&ask.wish.act))?;
                Ok(())
            }
            Err(_failed) => {
                net.close(conn);
                driver.lose(errand)?;
                Ok(())
            }
        },
        Err(_failed) => {
            driver.lose(errand)?;
            Ok(())
        }
    }
}
