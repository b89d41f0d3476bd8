//! What holds of the trace of every schedule by its making.

ghost use Rattle.std.specs.Prelude.{List};
ghost use Rattle.hy_trace.specs.declared.step.Step.{Step};
ghost use Rattle.hy_trace.specs.Deeds.{Params};
ghost use Rattle.hy_trace.specs.Trace.{IsTrace};
ghost use Rattle.hy_trace.specs.Schedule.{trace_of};

/// Each deed of a schedule could come after those before it: what an operation took was sent to it or comes from a Byzantine cloud, what was
/// served was sent, and a client begins an operation only where its others have replied.
pub fn schedules_make_traces()
    ensures { (p : Params) (schedule : List Step) → IsTrace p (trace_of p schedule) }
{}
