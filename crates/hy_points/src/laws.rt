//! What holds of every order by timestamp.

ghost use Rattle.std.specs.Prelude.{ℕ, List};
ghost use Rattle.hy_order.specs.Linearization.{RespectsRealTime};
ghost use Rattle.hy_order.specs.declared.operation.Operation.{Operation};
ghost use Rattle.hy_points.specs.Atomic.{no_stamp};
ghost use Rattle.hy_points.specs.Stamps.{AreTimely, FindsLastStamps, operations_by_stamp};

/// Where what returned before an operation was invoked has no greater timestamp, and a smaller one
/// where that writes, where none returned before it was invoked, and where each get found no record
/// or what a write wrote, the order by timestamp respects real time, and each get found the
/// timestamp of the last write before it.
pub fn orders_by_stamp_respect_time()
    ensures time { (history : List Operation) (key : List ℕ) →
        AreTimely history key → RespectsRealTime (operations_by_stamp history key) }
    ensures reads { (history : List Operation) (key : List ℕ) →
        AreTimely history key → FindsLastStamps no_stamp (operations_by_stamp history key) }
{}
