//! The rows of the layout of a tree: the places of entries, and the rows of symbols, of choices and of the lines that select or
//! imply.
//!
//! Most numbers are stored plus 1, so that 0 means none and an `Option` costs no space.

ghost use Rattle.std.specs.Prelude.{◌≡◌, ◌<◌, ◌^◌, suc, is_some};
ghost use Rattle.kc_tree.specs.Stored.{unstored};

use crate::maybe_choice::MaybeChoice;
use kc_expr::expression::{SymId, SymbolType};
pub use kc_language::symbols::ChoiceId;
use std::mem::size_of;

/// An entry: its number plus 1. 0 is none, which also means the top of the tree (our own).
#[derive(Clone, Copy, PartialEq, Eq, Debug)]
pub struct EntryId(pub u32);

/// An attribute: its number among all attributes plus 1. 0 is none (our own).
#[derive(Clone, Copy, PartialEq, Eq, Debug)]
pub struct AttributeId(pub u32);

/// A menu with a `visible if` line: its number among these menus plus 1. 0 is none (our own).
#[derive(Clone, Copy, PartialEq, Eq, Debug)]
pub struct VisibleId(pub u32);

/// A `select` or `imply` line that has an effect: its number among these lines plus 1. 0 is none (our own).
#[derive(Clone, Copy, PartialEq, Eq, Debug)]
pub struct SelectorId(pub u32);

// The number of an id that is stored plus 1, if there is one.
fn index_of(stored: u32) -> Option<usize>
    ensures { result ≡ unstored stored }
{
    if stored > 0 {
        Some(stored as usize - 1)
    } else {
        None
    }
}

impl EntryId {
    /// No entry, that is, the top of the tree.
    pub fn top() -> EntryId
        ensures { result.0 ≡ 0 }
    {
        EntryId(0)
    }

    /// The entry with this number.
    pub fn of(index: usize) -> EntryId
        requires { suc index < 2 ^ 32 }
        ensures { result.0 ≡ suc index }
    {
        EntryId(index as u32 + 1)
    }

    /// The number of the entry, or `None` for the top.
    pub fn index(self) -> Option<usize>
        ensures { result ≡ unstored self.0 }
    {
        index_of(self.0)
    }

    /// Whether it is an entry.
    pub fn is_some(self) -> bool
        ensures { result ≡ is_some (unstored self.0) }
    {
        self.0 > 0
    }
}

impl AttributeId {
    /// No attribute.
    pub fn none() -> AttributeId
        ensures { result.0 ≡ 0 }
    {
        AttributeId(0)
    }

    /// The attribute with this number.
    pub fn of(index: usize) -> AttributeId
        requires { suc index < 2 ^ 32 }
        ensures { result.0 ≡ suc index }
    {
        AttributeId(index as u32 + 1)
    }

    /// The number of the attribute, if there is one.
    pub fn index(self) -> Option<usize>
        ensures { result ≡ unstored self.0 }
    {
        index_of(self.0)
    }

    /// Whether it is an attribute.
    pub fn is_some(self) -> bool
        ensures { result ≡ is_some (unstored self.0) }
    {
        self.0 > 0
    }
}

impl VisibleId {
    /// The menu with this number among those with a `visible if` line.
    pub fn of(index: usize) -> VisibleId
        requires { suc index < 2 ^ 32 }
        ensures { result.0 ≡ suc index }
    {
        VisibleId(index as u32 + 1)
    }

    /// The number of the menu, if there is one.
    pub fn index(self) -> Option<usize>
        ensures { result ≡ unstored self.0 }
    {
        index_of(self.0)
    }

    /// Whether it is a menu.
    pub fn is_some(self) -> bool
        ensures { result ≡ is_some (unstored self.0) }
    {
        self.0 > 0
    }
}

impl SelectorId {
    /// No line.
    pub fn none() -> SelectorId
        ensures { result.0 ≡ 0 }
    {
        SelectorId(0)
    }

    /// The line with this number.
    pub fn of(index: usize) -> SelectorId
        requires { suc index < 2 ^ 32 }
        ensures { result.0 ≡ suc index }
    {
        SelectorId(index as u32 + 1)
    }

    /// The number of the line, if there is one.
    pub fn index(self) -> Option<usize>
        ensures { result ≡ unstored self.0 }
    {
        index_of(self.0)
    }

    /// Whether it is a line.
    pub fn is_some(self) -> bool
        ensures { result ≡ is_some (unstored self.0) }
    {
        self.0 > 0
    }
}

/// The place of an entry among the blocks, and a summary of its attributes (our own). All but `outer` and `next` could be found again.
#[derive(Clone, Copy, Debug, Drop)]
pub struct EntryPlace {
    /// The block around it. For a line that closes a block it is that block.
    pub outer: EntryId,
    /// The nearest entry with a condition, among itself and the blocks around it: an `if`, a choice, or an entry with a
    /// `depends on` line.
    pub context: EntryId,
    /// The nearest menu with a `visible if` line, among itself and the blocks around it.
    pub visible: VisibleId,
    /// The last prompt among its attributes.
    pub prompt: AttributeId,
    /// The next definition of the symbol that it defines.
    pub next: EntryId,
    pub has_default: bool,
    pub has_range: bool,
    /// Whether it has a `select` or `imply` line.
    pub has_target: bool,
}

// A large tree has one for each entry, so a place is small.
const _: () = prove!(size_of::<EntryPlace>() == 24);

/// A `select` or `imply` line that has an effect (the kernel's kconfig-language document, "Menu attributes": reverse
/// dependencies, weak reverse dependencies). `next` is the previous line of the same kind that names the same symbol.
#[derive(Clone, Copy, Debug, Drop)]
pub struct Selector {
    pub entry: EntryId,
    pub attribute: AttributeId,
    pub next: SelectorId,
}

/// The row of one symbol: the first type that a line gives it, or bool for a member of a choice without one; the choice that it
/// is a member of; its first definition, from which `next` leads to the others; and the last line of each kind that selects or
/// implies it, from which `next` leads to those before it.
#[derive(Debug, Drop)]
pub struct Symbol {
    pub symbol_type: SymbolType,
    pub choice: MaybeChoice,
    pub first: EntryId,
    pub last_select: SelectorId,
    pub last_imply: SelectorId,
}

/// A choice: its entry, and its members in order (the kernel's kconfig-language document, "Menu entries").
#[derive(Debug, Drop)]
pub struct Choice {
    pub entry: EntryId,
    pub members: Vec<SymId>,
}
