//! Serving a cloud over a net.

ghost use Rattle.std.specs.Prelude.{◌≡◌, IsErrOf};
ghost use Rattle.hy_base.specs.Faults.{Rose};
ghost use Rattle.hy_base.specs.Net.{Adds};
ghost use Rattle.hy_serve.specs.CloudRole.{ServesCloud};
ghost use Rattle.hy_serve.specs.declared.fault.ServeFault.TheVariants as faults;

use crate::answer::give;
use crate::cloud_server::CloudServer;
use crate::fault::ServeFault;
use crate::room::buffer;
use hy_base::Net;
use std::alloc::Global;

/// Serves a cloud at this port, until so many arrivals were taken.
///
/// Each connection sends one request, which is answered, and is closed behind the answer. A fault of
/// a request is answered by its status; one that the peer cuts short is not answered.
pub fn serve_cloud<N: Net>(
    net: &mut N,
    alloc: Global,
    port: u16,
    arrivals: u32,
) -> Result<(), ServeFault>
    ensures plays { Adds N.told N.tells net.old net.new (ServesCloud port arrivals result) }
    ensures fault { IsErrOf result faults.NetFault
        → Rose (N.taking_faults net.old) (N.taking_faults net.new) }
    ensures kept { ¬ IsErrOf result faults.NetFault
        → N.taking_faults net.new ≡ N.taking_faults net.old }
{
    let mut buf = buffer(alloc)?;
    serve_over(net, alloc, port, arrivals, &mut buf)
}

/// The same, with room for a piece.
fn serve_over<N: Net>(
    net: &mut N,
    alloc: Global,
    port: u16,
    arrivals: u32,
    buf: &mut [u8],
) -> Result<(), ServeFault>
    ensures plays { Adds N.told N.tells net.old net.new (ServesCloud port arrivals result) }
    ensures fault { IsErrOf result faults.NetFault
        → Rose (N.taking_faults net.old) (N.taking_faults net.new) }
    ensures kept { ¬ IsErrOf result faults.NetFault
        → N.taking_faults net.new ≡ N.taking_faults net.old }
{
    let mut server = CloudServer::new(alloc)?;
    net.listen(port)?;
    for _taken in 0..arrivals {
        let arrival = net.next(buf)?;
        let answer = server.react(alloc, arrival, buf)?;
        give(net, &answer);
    }
    Ok(())
}
