//! The parts of a dependency file.

/// The position of a name in the rule of a dependency file.
#[derive(Clone, Copy)]
pub enum Position {
    /// Before the colon.
    Target,
    /// After the colon.
    Prerequisite,
}
