//! What holds of every report and of every order.

ghost use Rattle.std.specs.Prelude.{◌≡◌, ◌↔◌, ℕ, List};
ghost use Rattle.hy_order.specs.Linearization.{IsLinearization};
ghost use Rattle.hy_order.specs.Report.{report_text};
ghost use Rattle.hy_order.specs.ReportRanges.{IsReport};
ghost use Rattle.hy_order.specs.ReportReading.{report_of};
ghost use Rattle.hy_order.specs.Violation.{first_violation};
ghost use Rattle.hy_order.specs.declared.operation.Operation.{Operation};
ghost use Rattle.hy_order.specs.declared.report.Report.{Report};

use crate::verdict::Verdict;

/// What is read of the text of a report in range is that report.
pub fn reports_are_read_back()
    ensures { (report : Report) → IsReport report → report_of (report_text report) ≡ Ok report }
{}

/// An order has no violation exactly where it is a linearization.
pub fn legal_exactly_for_linearizations()
    ensures { (history : List Operation) (key order : List ℕ) → (first_violation history key order ≡ Verdict.Legal) ↔ IsLinearization history key order }
{}
