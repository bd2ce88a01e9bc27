//! Which conditions hold.

/// A condition that was read: the position of the `#` of its line among the items of the source, and whether it holds.
#[derive(Clone, Copy)]
pub struct Truth {
    /// The position of the `#`.
    pub position: usize,
    /// Whether the condition holds.
    pub holds: bool,
}
