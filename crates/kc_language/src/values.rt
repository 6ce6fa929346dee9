//! The bounds of a range.

/// The bounds of a range, both of them inside (the kernel's kconfig-language document, "Menu attributes": numerical
/// ranges). The low bound may be above the high bound.
#[derive(Clone, Copy, Debug)]
pub struct Interval {
    /// The least number inside.
    pub low: i128,
    /// The greatest number inside.
    pub high: i128,
}
