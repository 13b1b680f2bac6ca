//! The result of a count.

/// The number of accepted entries, and the number of nodes opened to count them.
#[derive(Clone, Copy, Debug, PartialEq, Eq)]
pub struct Count {
    /// The number of accepted entries.
    pub accepted: u64,
    /// The number of opened nodes.
    pub opened: u64,
}
