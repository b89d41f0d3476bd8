//! Worked schedules, as laws: their traces are computed.

ghost use Rattle.hy_trace.specs.Rows.{WorkedRows};

/// What worked schedules tell: each history, and the order of its key.
pub fn worked_rows_are_told()
    ensures { WorkedRows }
{}
