//! The operators of a line, and why a line cannot be read.

ghost use Rattle.std.specs.Prelude.{◌≡◌};
ghost use Rattle.kc_language.specs.declared.tokens.TextFault.TheVariants.{Memory};

use std::alloc::{AllocError, AllocFailed};
use thiserror::Error;

/// An operator: a relation, a connective or a parenthesis of the kernel's kconfig-language document
/// ("Menu dependencies").
#[derive(Clone, Copy, Debug, PartialEq, Eq)]
pub enum Op {
    /// `=`
    Eq,
    /// `!=`
    Ne,
    /// `<`
    Lt,
    /// `>`
    Gt,
    /// `<=`
    Le,
    /// `>=`
    Ge,
    /// `!`
    Not,
    /// `&&`
    And,
    /// `||`
    Or,
    /// `(`
    LParen,
    /// `)`
    RParen,
}

/// Why a text could not be read.
#[derive(Clone, Copy, Debug, PartialEq, Eq, Error)]
pub enum TextFault {
    /// E4: a logical line, counted after its physical lines are joined, has more than 8,191 bytes.
    /// The number is that of its first physical line. The limit is our own.
    #[error("line {0} is longer than 8191 bytes")]
    LineTooLong(u32),
    /// E5: at a position of the line neither a token nor a macro begins: a byte of no token, a lone `&`
    /// or `|`, or a quoted text without an end.
    #[error("bad token")]
    BadToken,
    /// E6: a macro: a `$`, or a quoted text that holds a `$`. A quoted text without an end reaches to
    /// the end of the line. The kernel's kconfig-macro-language document defines macros. They are not
    /// supported here.
    #[error("macro")]
    Macro,
    /// E20: memory ran out.
    #[error("out of memory")]
    Memory,
}

impl From<AllocError> for TextFault {
    ghost from_gives = { λ _ e. e ≡ Memory };

    fn from(_e: AllocError) -> TextFault {
        TextFault::Memory
    }
}

impl<T: Drop> From<AllocFailed<T>> for TextFault {
    ghost from_gives = { λ _ e. e ≡ Memory };

    fn from(_e: AllocFailed<T>) -> TextFault {
        TextFault::Memory
    }
}
