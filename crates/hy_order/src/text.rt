//! The text of a report: it is written, and read back.

mod end_line;
mod held_line;
mod operation_line;
mod order_line;
mod reading;
mod slots;
mod writing;

pub use reading::read_report;
pub use writing::write_report;
