//! What a run is made of.

use crate::event::Events;
use crate::params::Params;

/// A store, and the events of its run.
#[derive(Debug, Drop)]
pub struct Schedule {
    pub params: Params,
    pub events: Events,
}
