//! Servers over a net.

ghost use Rattle.hy_serve.specs.CloudRole.{ServesCloud};
ghost use Rattle.hy_serve.specs.MetaRole.{ServesMeta};
ghost use Rattle.hy_top.specs.NetUse.{net_use};
ghost use Rattle.hy_top.specs.Serve.{ServesAt};

use crate::line::arrivals_line;
use crate::status::Status;
use hy_base::{Blob, Net};
use hy_serve::{serve_cloud, serve_meta};
use std::alloc::Global;

/// How many arrivals the server of the metadata took.
pub(crate) fn meta_line<N: Net>(
    alloc: Global,
    net: &mut N,
    port: u16,
    arrivals: u32,
) -> Result<Blob, Status>
    ensures { ServesAt (ServesMeta port arrivals) arrivals
        (net_use N.told N.tells N.taking_faults N.sending_faults net.old net.new) result }
{
    serve_meta(net, alloc, port, arrivals)?;
    Ok(arrivals_line(alloc, arrivals)?)
}

/// How many arrivals the server of a cloud took.
pub(crate) fn cloud_line<N: Net>(
    alloc: Global,
    net: &mut N,
    port: u16,
    arrivals: u32,
) -> Result<Blob, Status>
    ensures { ServesAt (ServesCloud port arrivals) arrivals
        (net_use N.told N.tells N.taking_faults N.sending_faults net.old net.new) result }
{
    serve_cloud(net, alloc, port, arrivals)?;
    Ok(arrivals_line(alloc, arrivals)?)
}
