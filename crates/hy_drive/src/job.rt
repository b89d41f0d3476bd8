//! What a client over a net is to do.

use hy_record::Action;

/// The shape of the store, the ports of its parts, and what is asked of it.
#[derive(Debug, Drop)]
pub struct Job {
    /// How many faulty clouds the store bears.
    pub f: u8,
    /// Into how many parts it cuts a value.
    pub k: u8,
    /// The port of the metadata service.
    pub meta: u16,
    /// The port of cloud 0. Cloud i is at port `clouds` + i.
    pub clouds: u16,
    pub action: Action,
}
