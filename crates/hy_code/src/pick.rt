//! A fragment as it was picked from a cloud.

use hy_base::Blob;

/// The bytes that a cloud gave, and the cloud's number, which is the place of the bytes on the polynomials.
#[derive(Debug, Drop)]
pub struct Pick {
    pub cloud: u8,
    pub bytes: Blob,
}
