//! The three methods.

/// What is asked of a cloud, without what goes with it.
#[derive(Clone, Copy, Debug, PartialEq, Eq)]
pub enum WishKind {
    /// Hold these bytes: the method PUT.
    Put,
    /// Answer the bytes that are held: GET.
    Get,
    /// Hold nothing: DELETE.
    Delete,
}
