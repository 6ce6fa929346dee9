//! Keywords, blocks and entries.

use crate::expressions::SymbolType;

/// The keyword that is the first word of a line (the kernel's kconfig-language document).
#[derive(Clone, Copy, Debug, PartialEq, Eq)]
pub enum Keyword {
    Config,
    If,
    EndIf,
    Comment,
    Source,
    Menu,
    EndMenu,
    Choice,
    EndChoice,
    MainMenu,
    Type(SymbolType),
    Prompt,
    Default,
    Def(SymbolType),
    Depends,
    Visible,
    Select,
    Imply,
    Range,
    Help,
    Modules,
    Option,
    LeftOut,
}

/// A block: the lines up to its closing keyword (the kernel's kconfig-language document, "Kconfig syntax").
#[derive(Clone, Copy, Debug, PartialEq, Eq)]
pub enum Block {
    If,
    Menu,
    Choice,
}

/// The kind of entry that an attribute would belong to (the kernel's kconfig-language document, "Menu attributes").
#[derive(Clone, Copy, Debug, PartialEq, Eq)]
pub enum EntryKind {
    Nothing,
    Config,
    Choice,
    Menu,
    Comment,
}
