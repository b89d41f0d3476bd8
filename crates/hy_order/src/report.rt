//! What a run reports.

use crate::held::HeldList;
use crate::history::History;
use crate::order::Orders;

/// The last step that the text of a report can name: 2^63.
pub const LAST_STEP: u64 = 9_223_372_036_854_775_808;

/// The operations of a run, an order for each key, and the retrievable copies at its end.
#[derive(Debug, Drop)]
pub struct Report {
    pub history: History,
    pub orders: Orders,
    pub held: HeldList,
}
