//! Where a value comes from.

/// Where the value of a symbol comes from (our own).
#[derive(Clone, Copy, Debug, PartialEq, Eq)]
pub enum Source {
    /// It has no type: it is not defined, or no line gives its type.
    Untyped,
    /// A `select` raises it above the user's value or the default.
    Selected,
    /// The user gave it.
    User,
    /// An `imply` raises it above the default.
    Implied,
    /// A default gives it.
    Default,
    /// A default gives it, moved into the active range.
    MovedDefault,
    /// No default applies.
    NoDefault,
    /// It is a member of a choice whose mode is n.
    ChoiceOff,
    /// It is a member of a choice that selects the user's member.
    UserMember,
    /// It is a member of a choice that selects a default or the first visible member.
    DefaultMember,
}
