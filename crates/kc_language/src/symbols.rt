//! Menu entries, and warnings about the lines of a tree.

use crate::expressions::SymId;

/// The number of a choice. Choices are numbered from 0 in the order in which they open. The numbers are our own.
#[derive(Clone, Copy, PartialEq, Eq, Debug)]
pub struct ChoiceId(pub u32);

/// The menu entry that a line belongs to: a symbol's, a choice's, or another.
#[derive(Clone, Copy, Debug, PartialEq, Eq)]
pub enum MenuEntry {
    Symbol(SymId),
    Choice(ChoiceId),
    Other,
}

/// Whether a line selects a symbol or implies it.
#[derive(Clone, Copy, Debug, PartialEq, Eq)]
pub enum SelectOrImply {
    Select,
    Imply,
}

/// A warning about a line:
/// - `TypeRedefined`: the line's type is not the symbol's first type, which is kept;
/// - `PromptRedefined`: an entry has a second prompt, and the last is kept; without a symbol the entry is a choice;
/// - `WithoutType`: the line is the first definition of a symbol that has no type and is no member of a choice;
/// - `TextTarget`: the line selects or implies a string, int or hex symbol, which has no effect;
/// - `DefaultNotMember`: the line is a choice's default and names a symbol that is not a member;
/// - `MemberTarget`: the line selects or implies a member of a choice, which has no effect.
#[derive(Clone, Copy, Debug, PartialEq, Eq)]
pub enum LineWarning {
    TypeRedefined(SymId),
    PromptRedefined(Option<SymId>),
    WithoutType(SymId),
    TextTarget(SymId, SelectOrImply),
    DefaultNotMember(SymId),
    MemberTarget(SymId, SelectOrImply),
}
