//! Worked schedules that meet the premises of the laws, as a law: their traces are computed.

ghost use Rattle.hy_theorems.specs.Rows.{PremisesAreMet};

/// Each premise of a law is met by a worked schedule.
pub fn premises_are_met()
    ensures { PremisesAreMet }
{}
