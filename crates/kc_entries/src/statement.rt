//! The statement of a line.

use kc_diagnostics::Cause;
use kc_expr::expression::{Expr, Operand, SymId, SymbolType};
pub use kc_language::statements::{Block, EntryKind, Keyword};
use std::mem::size_of;
use std::rc::Rc;

/// A prompt (the kernel's kconfig-language document, "Menu attributes": input prompt): its condition. Its text is read
/// but not kept, since no output shows it.
#[derive(Debug, Drop)]
pub struct Prompt {
    pub when: Option<Rc<Expr>>,
}

/// A default: its value and its own `if` (the kernel's kconfig-language document, "Menu attributes": default value).
#[derive(Debug, Drop)]
pub struct SymbolDefault {
    pub value: Rc<Expr>,
    pub when: Option<Rc<Expr>>,
}

/// A range: its bounds and its own `if` (the kernel's kconfig-language document, "Menu attributes": numerical ranges).
#[derive(Debug, Drop)]
pub struct SymbolRange {
    pub low: Operand,
    pub high: Operand,
    pub when: Option<Rc<Expr>>,
}

/// The line that begins an entry, or opens or closes a block (the kernel's kconfig-language document, "Menu entries").
/// Texts are boxed, since few entries have one. So a list of entries stays small.
#[derive(Debug, Drop)]
pub enum Head {
    Config(SymId),
    If(Rc<Expr>),
    EndIf,
    Comment(Box<Vec<u8>>),
    Menu(Box<Vec<u8>>),
    EndMenu,
    Choice,
    EndChoice,
    MainMenu(Box<Vec<u8>>),
}

/// A further line of an entry (the kernel's kconfig-language document, "Menu attributes"). Expressions, and the fields of rare
/// lines, are allocated apart, so that a list of lines stays small.
#[derive(Debug, Drop)]
pub enum Attribute {
    Type(SymbolType, Option<Prompt>),
    Prompt(Prompt),
    Default(SymbolDefault),
    Def(SymbolType, SymbolDefault),
    Depends(Rc<Expr>),
    Visible(Rc<Expr>),
    Select(SymId, Option<Rc<Expr>>),
    Imply(SymId, Option<Rc<Expr>>),
    Range(Box<SymbolRange>),
    Help,
    Modules,
    Ignored,
}

// A list of lines holds very many attributes, so an attribute is small.
const _: () = prove!(size_of::<Attribute>() == 32);

/// The statement of a line: a line of the expanded list, or a `source` line.
#[derive(Debug, Drop)]
pub enum Statement {
    Head(Head),
    Attribute(Attribute),
    Source(Vec<u8>),
}

/// An open block, and the file and the number of the line that opened it (our own).
#[derive(Debug, Drop)]
pub struct OpenBlock {
    pub block: Block,
    pub file: Rc<Vec<u8>>,
    pub line: u32,
}

/// Why a line is refused: the cause, with the word or name in the line that it is about.
pub type LineFault<'a> = Cause<&'a [u8]>;
