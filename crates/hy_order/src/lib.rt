//! Histories of operations, their orders, the checker of orders, and the report that tells both.
//!
//!     let verdict = check(alloc, &history, &order)?;
//!
//! Definitions: `specs/History.antt`, `specs/Linearization.antt`, and the text of a report in `specs/Report.antt`.
//!
//! Proved: the checker answers the first violation of an order in a fixed sequence, and Legal exactly where the
//! order is a linearization (`checker/checking.rt`, `check`: `verdict`, `legal`; `laws.rt`,
//! `legal_exactly_for_linearizations`). A report is written exactly as its text is defined (`text/writing.rt`,
//! `write_report`), and read exactly where the text is that of one in the ranges of `docs/FORMATS.md`, else the
//! first bad line and its cause is answered (`text/reading.rt`, `read_report`: `found`, `only`, `refused`,
//! `exact`); a report in these ranges is read back from its text (`reports_are_read_back`). The first illegal
//! order of a report is found, and there is none exactly where each order is a linearization; where the report
//! is in these ranges, that is exactly where it is linearizable (`first_illegal`: `found`, `legal`,
//! `linearizable`).
#![tactic(auto)]

mod checker;
mod held;
mod history;
mod laws;
mod membership;
mod operation;
mod order;
mod report;
mod text;
mod verdict;

pub use checker::{check, first_illegal};
pub use held::{Held, HeldList};
pub use history::History;
pub use laws::{legal_exactly_for_linearizations, reports_are_read_back};
pub use membership::{is_finished, is_of_key};
pub use operation::{End, Operation};
pub use order::{Order, Orders};
pub use report::{LAST_STEP, Report};
pub use text::{read_report, write_report};
pub use verdict::Verdict;
