//! The metadata service: it keeps the record of each key and its superseded timestamps, answers
//! conditional swaps once, and fires one-time watches.
//!
//! `Meta` is the contract of a service; `Service` finds a key by a digest, `PlainService` searches from
//! the front, and both serve by the same code (`serving.rt`) over what each keeps (`keeps.rt`).
//!
//!     let says = service.serve(alloc, &ask)?;
//!
//! Definitions: `specs/Service.antt`. An update, and a swap that is judged, is one attempt to make a
//! record that of its key; all that the service keeps is defined over attempts.
//!
//! Proved, for every service that meets `Meta`: the answers are those of the definitions over the requests
//! served (`says`), want of memory leaves it standing for the same requests (`err`), and ids go from 1 to
//! 4,096 (`join`). As laws (`laws.rt`): a record's timestamp never falls; an update applies exactly where
//! it is above the record, a swap where the record has the timestamp that it expects; a swap acts once
//! however often it is repeated; what is superseded stays below the record; the list of superseded
//! timestamps has the least of them; each watch fires at most once for each time that it was asked for.
#![tactic(auto)]

mod digest;
mod entries;
mod entry;
mod keeps;
mod laws;
mod messages;
mod meta;
mod old_set;
mod olds;
mod plain;
mod rows;
mod run;
mod service;
mod serving;
mod shelf;
mod verdicts;
mod watcher;

pub use laws::{
    no_update_is_above, old_list_has_the_least, olds_stay_below, record_is_of_an_attempt,
    record_never_falls, swaps_act_once, swaps_apply_where_expected, swaps_are_judged_in_order,
    updates_apply_where_above, watches_fire_once,
};
pub use meta::{Meta, SessionsFull};
pub use plain::PlainService;
pub use run::run_asks;
pub use service::Service;
pub use watcher::Watcher;

#[cfg(test)]
mod tests;
