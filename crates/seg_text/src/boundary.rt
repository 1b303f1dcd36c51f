//! Boundaries: where a text may be cut.

/// A boundary and its status.
#[derive(Clone, Copy, Debug, PartialEq, Eq)]
pub struct Boundary {
    /// How far from the start it stands: in a text so many units (bytes in str, UTF-8 and Latin-1, 16-bit units in
    /// UTF-16), in a list so many elements.
    pub offset: usize,
    /// What the rules say of it: the rule status of a pair table, or the status of a state machine.
    pub status: u8,
}
