//! Why a tree is refused: the text of the error, and copies of it.

ghost use Rattle.std.specs.Prelude.{◌≡◌, IfOk, flat_map};
ghost use Rattle.kc_language.specs.Statements.{cause_text};
ghost use Rattle.kc_diagnostics.specs.Causes.{owned_cause, shown_cause};

use kc_language::diagnostics::Cause;
use std::alloc::{AllocError, Global};

/// Returns the same cause with a name of its own. The only error is that memory runs out.
pub fn owned(cause: Cause<&[u8]>, alloc: Global) -> Result<Cause<Vec<u8>>, AllocError>
    ensures { IfOk result (λ copy. owned_cause copy ≡ shown_cause cause.entry) }
{
    Ok(match cause {
        Cause::NoFile(name) => Cause::NoFile(Vec::from_slice(alloc, name)?),
        Cause::InclusionLoop(name) => Cause::InclusionLoop(Vec::from_slice(alloc, name)?),
        Cause::TooManyLines => Cause::TooManyLines,
        Cause::LineTooLong => Cause::LineTooLong,
        Cause::BadToken => Cause::BadToken,
        Cause::Macro => Cause::Macro,
        Cause::LeftOut(word) => Cause::LeftOut(Vec::from_slice(alloc, word)?),
        Cause::Syntax => Cause::Syntax,
        Cause::Block => Cause::Block,
        Cause::Misplaced => Cause::Misplaced,
        Cause::BadName(name) => Cause::BadName(Vec::from_slice(alloc, name)?),
        Cause::TooDeep => Cause::TooDeep,
        Cause::ChoiceMember(name) => Cause::ChoiceMember(Vec::from_slice(alloc, name)?),
        Cause::BadDefault(name) => Cause::BadDefault(Vec::from_slice(alloc, name)?),
        Cause::Loop(names) => Cause::Loop(Vec::from_slice(alloc, names)?),
        Cause::TooManySymbols => Cause::TooManySymbols,
        Cause::Memory => Cause::Memory,
    })
}

/// Returns the error's number and text as consecutive parts.
pub fn cause_parts(cause: &Cause<Vec<u8>>) -> [&[u8]; 3]
    ensures { flat_map (λ part. part.now) result ≡ cause_text (owned_cause cause.now) }
{
    match cause {
        Cause::NoFile(name) => [b"E1: no file ", name, b""],
        Cause::InclusionLoop(name) => [b"E2: file ", name, b" includes itself"],
        Cause::TooManyLines => [b"E3: more than 1000000 lines", b"", b""],
        Cause::LineTooLong => [b"E4: line longer than 8191 bytes", b"", b""],
        Cause::BadToken => [b"E5: bad token", b"", b""],
        Cause::Macro => [b"E6: macro", b"", b""],
        Cause::LeftOut(word) => [b"E7: ", word, b" is left out"],
        Cause::Syntax => [b"E8: syntax", b"", b""],
        Cause::Block => [b"E9: unbalanced block", b"", b""],
        Cause::Misplaced => [b"E10: misplaced", b"", b""],
        Cause::BadName(name) => [b"E11: bad name ", name, b""],
        Cause::TooDeep => [b"E12: too deep", b"", b""],
        Cause::ChoiceMember(name) => [b"E13: choice member ", name, b""],
        Cause::BadDefault(name) => [b"E14: bad default of ", name, b""],
        Cause::Loop(names) => [b"E15: dependency loop: ", names, b""],
        Cause::TooManySymbols => [b"E16: more than 65535 symbols", b"", b""],
        Cause::Memory => [b"E20: out of memory", b"", b""],
    }
}
