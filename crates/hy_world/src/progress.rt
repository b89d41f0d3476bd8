//! How far the operations of all clients are.

ghost use Rattle.std.specs.Prelude.{List, IfOk};
ghost use Rattle.hy_trace.specs.Deeds.{Params as TraceParams, Deed};
ghost use Rattle.hy_world.specs.Nodes.{NodesStand};
ghost use Rattle.hy_log.specs.History.{AreRunning};

use crate::nodes::Nodes;
use hy_base::NoMemory;
use hy_operation::Progress;
use std::alloc::Global;

impl Nodes {
    /// How far the last operation of each client is, where that has no reply; the client of number
    /// 1 stands first.
    pub(crate) fn running(&self, alloc: Global) -> Result<Vec<Option<Progress>>, NoMemory>
        ensures { IfOk result (λ running. (p : TraceParams) (t : List Deed) →
            NodesStand p t self.now → AreRunning p t running.items) }
    {
        let mut running = Vec::new(alloc);
        for seat in &self.seats {
            let progress = seat.progress();
            running.push(progress)?;
        }
        Ok(running)
    }
}
