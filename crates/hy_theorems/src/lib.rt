//! What holds of every schedule of deliveries, losses, repeats, timeouts, crashes and forged answers, in
//! stores of every shape.
//!
//! Each law is a function with an empty body. Its contract is the law (`laws.rt`).
//!
//! Where no two different strings that were hashed share a SHA-256 hash, the report is linearizable, with
//! any number of Byzantine clouds, over puts, gets, deletes and swaps (`reports_are_linearizable`; key by
//! key `orders_are_linearizations`). The order is stated by points, each within its operation
//! (`points_lie_within_operations`), and is the order by timestamps (`orders_stand_by_stamp`).
//!
//! With at most f Byzantine clouds the current version of each key can be rebuilt from k honest ones,
//! whatever was collected (`current_versions_stay_retrievable`, `reported_copies_are_enough`), and a get
//! that all honest clouds of its version answered in vain follows a superseded version
//! (`starved_reads_are_superseded`). With any number of them a get refreshes at most once for each update
//! or swap that was applied since it began (`refreshes_are_bounded_by_updates`), and a collector deletes
//! superseded versions only (`deletions_are_superseded`). Each premise is met by a worked schedule
//! (`premises_are_met`).
#![tactic(auto)]

mod laws;
mod rows;

pub use laws::{
    current_versions_stay_retrievable, deletions_are_superseded, operations_are_a_history,
    orders_are_linearizations, orders_respect_real_time, orders_stand_by_stamp,
    points_lie_within_operations, reads_find_the_last_write, refreshes_are_bounded_by_updates,
    refreshes_are_reads_sent_again, reported_copies_are_enough, reports_are_linearizable,
    stamps_of_writes_differ, starved_reads_are_superseded, values_are_held,
};
pub use rows::premises_are_met;
