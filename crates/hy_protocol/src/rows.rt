//! Worked inputs, as laws: what operations and clouds do at them is computed from the definitions.

ghost use Rattle.hy_protocol.specs.Rows.{PutRow, SwapRow, GetRow, CollectRow, CloudRow};
ghost use Rattle.hy_protocol.specs.EdgeRows.{WriteEdges, CodedEdges, ReadEdges, CollectEdges, TurnEdges, SessionEdges};

/// What a put, a swap, a get, a collection and an honest cloud do at worked inputs, one by one.
pub fn worked_inputs_are_answered()
    ensures put { PutRow }
    ensures swap { SwapRow }
    ensures get { GetRow }
    ensures collection { CollectRow }
    ensures cloud { CloudRow }
{}

/// What they do at the edges: repeats, timeouts, the last timestamp, and inputs for others.
pub fn edges_are_answered()
    ensures write { WriteEdges }
    ensures coded { CodedEdges }
    ensures read { ReadEdges }
    ensures collection { CollectEdges }
    ensures turns { TurnEdges }
    ensures session { SessionEdges }
{}
