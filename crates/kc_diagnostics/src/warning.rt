//! The texts and the lines of warnings.

ghost use Rattle.std.specs.Prelude.{◌≡◌, ◌++◌, OnOk, OnErr, take};
ghost use Rattle.kc_language.specs.declared.diagnostics.Warning.TheVariants.{Changed};
ghost use Rattle.kc_language.specs.Symbols.{located_warning, warning_line, warning_text};
ghost use Rattle.kc_diagnostics.specs.Warnings.{owned_warning, shown_warning};

use crate::parts::add_parts;
use itoa::Buffer;
use kc_language::diagnostics::Warning;
use std::alloc::AllocError;

/// Returns the same warning with its texts borrowed.
pub fn borrowed(warning: &Warning<Vec<u8>>) -> Warning<&[u8]>
    ensures { shown_warning result ≡ owned_warning warning.now }
{
    match warning {
        Warning::TypeRedefined(name) => Warning::TypeRedefined(name),
        Warning::PromptRedefined(name) => Warning::PromptRedefined(name),
        Warning::WithoutType(name) => Warning::WithoutType(name),
        Warning::TextTarget { name, word } => Warning::TextTarget { name, word },
        Warning::DefaultNotMember(name) => Warning::DefaultNotMember(name),
        Warning::MemberTarget { name, word } => Warning::MemberTarget { name, word },
        Warning::UnknownSymbol(name) => Warning::UnknownSymbol(name),
        Warning::NotAllowed(name) => Warning::NotAllowed(name),
        Warning::MalformedLine => Warning::MalformedLine,
        Warning::SetAgain(name) => Warning::SetAgain(name),
        Warning::Selected {
            name,
            selected_to,
            direct,
        } => Warning::Selected {
            name,
            selected_to,
            direct,
        },
        Warning::UserOutside {
            name,
            value,
            low,
            high,
        } => Warning::UserOutside {
            name,
            value,
            low,
            high,
        },
        Warning::DefaultOutside {
            name,
            value,
            low,
            high,
            used,
        } => Warning::DefaultOutside {
            name,
            value,
            low,
            high,
            used,
        },
        Warning::Lost { name, given, value } => Warning::Lost { name, given, value },
        Warning::LostWithoutPrompt { name, given, value } => {
            Warning::LostWithoutPrompt { name, given, value }
        }
        Warning::Changed {
            name,
            old,
            file,
            line,
            new,
        } => Warning::Changed {
            name,
            old,
            file,
            line: *line,
            new,
        },
        Warning::TextUnset(name) => Warning::TextUnset(name),
    }
}

// Appends the number and the text of K15, or nothing if memory runs out.
fn add_change<'a>(
    name: &'a [u8],
    old: &'a [u8],
    file: &'a [u8],
    line: u64,
    new: &'a [u8],
    text: &mut Vec<u8>,
) -> Result<(), AllocError>
    ensures whole { OnOk result (text.new.items ≡ text.old.items ++ warning_text (Changed name.now old.now file.now line new.now)) }
    ensures nothing { OnErr result (text.new.items ≡ text.old.items) }
{
    let mut buffer = Buffer::new();
    let digits = buffer.format(line).as_bytes();
    add_parts(
        &[
            b"K15: ",
            name,
            b" was ",
            old,
            b" (",
            file,
            b":",
            digits,
            b") and is now ",
            new,
        ],
        text,
    )
}

// Appends the warning's number and text. The only error is that memory runs out. Then nothing was appended.
fn add_text(warning: Warning<&[u8]>, text: &mut Vec<u8>) -> Result<(), AllocError>
    ensures whole { OnOk result (text.new.items ≡ text.old.items ++ warning_text (shown_warning warning.entry)) }
    ensures nothing { OnErr result (text.new.items ≡ text.old.items) }
{
    match warning {
        Warning::TypeRedefined(name) => add_parts(
            &[b"K1: type of ", name, b" redefined, the first is kept"],
            text,
        ),
        Warning::PromptRedefined(name) => add_parts(
            &[b"K2: prompt of ", name, b" redefined, the last is kept"],
            text,
        ),
        Warning::WithoutType(name) => add_parts(&[b"K3: ", name, b" has no type"], text),
        Warning::TextTarget { name, word } => add_parts(
            &[
                b"K4: ",
                name,
                b" is not bool or tristate, the ",
                word,
                b" has no effect",
            ],
            text,
        ),
        Warning::DefaultNotMember(name) => add_parts(
            &[b"K5: ", name, b" is not a member of the choice"],
            text,
        ),
        Warning::MemberTarget { name, word } => add_parts(
            &[
                b"K6: ",
                name,
                b" is a choice member, the ",
                word,
                b" has no effect",
            ],
            text,
        ),
        Warning::UnknownSymbol(name) => add_parts(&[b"K7: unknown symbol ", name], text),
        Warning::NotAllowed(name) => add_parts(&[b"K8: value not allowed for ", name], text),
        Warning::MalformedLine => add_parts(&[b"K9: malformed line"], text),
        Warning::SetAgain(name) => add_parts(&[b"K10: ", name, b" is set again"], text),
        Warning::Selected {
            name,
            selected_to,
            direct,
        } => add_parts(
            &[
                b"K11: ",
                name,
                b" is selected to ",
                selected_to,
                b" while its dependency is ",
                direct,
            ],
            text,
        ),
        Warning::UserOutside {
            name,
            value,
            low,
            high,
        } => add_parts(
            &[
                b"K12: user value ",
                value,
                b" of ",
                name,
                b" is outside ",
                low,
                b" to ",
                high,
            ],
            text,
        ),
        Warning::DefaultOutside {
            name,
            value,
            low,
            high,
            used,
        } => add_parts(
            &[
                b"K13: default ",
                value,
                b" of ",
                name,
                b" is outside ",
                low,
                b" to ",
                high,
                b", ",
                used,
                b" is used",
            ],
            text,
        ),
        Warning::Lost { name, given, value } => add_parts(
            &[b"K14: ", name, b" was given ", given, b" and is ", value],
            text,
        ),
        Warning::LostWithoutPrompt { name, given, value } => add_parts(
            &[
                b"K14: ",
                name,
                b" has no prompt; it was given ",
                given,
                b" and is ",
                value,
            ],
            text,
        ),
        Warning::Changed {
            name,
            old,
            file,
            line,
            new,
        } => add_change(name, old, file, line, new, text),
        Warning::TextUnset(name) => add_parts(
            &[
                b"K16: ",
                name,
                b" is not bool or tristate, the line has no effect",
            ],
            text,
        ),
    }
}

// Appends the warning's number and text to a text. On an error, cuts the text to a length.
fn add_after(warning: Warning<&[u8]>, before: usize, text: &mut Vec<u8>) -> Result<(), AllocError>
    ensures whole { OnOk result (text.new.items ≡ text.old.items ++ warning_text (shown_warning warning.entry)) }
    ensures nothing { OnErr result (text.new.items ≡ take before text.old.items) }
{
    match add_text(warning, text) {
        Ok(()) => Ok(()),
        Err(fault) => {
            text.truncate(before);
            Err(fault)
        }
    }
}

/// Appends `warning TEXT`, the line of a warning without a location, without its line feed. The only error is that memory runs
/// out. Then nothing was appended.
pub fn add_warning(warning: Warning<&[u8]>, text: &mut Vec<u8>) -> Result<(), AllocError>
    ensures whole { OnOk result (text.new.items ≡ text.old.items ++ warning_line (shown_warning warning.entry)) }
    ensures nothing { OnErr result (text.new.items ≡ text.old.items) }
{
    let before = text.len();
    add_parts(&[b"warning "], text)?;
    add_after(warning, before, text)
}

/// Appends `FILE:LINE: warning TEXT`, the line of a warning about a line, without its line feed. The only error is that memory
/// runs out. Then nothing was appended.
pub fn add_located(
    file: &[u8],
    line: u64,
    warning: Warning<&[u8]>,
    text: &mut Vec<u8>,
) -> Result<(), AllocError>
    ensures whole { OnOk result (text.new.items ≡ text.old.items ++ located_warning file.now line (shown_warning warning.entry)) }
    ensures nothing { OnErr result (text.new.items ≡ text.old.items) }
{
    let before = text.len();
    let mut buffer = Buffer::new();
    let digits = buffer.format(line).as_bytes();
    add_parts(&[file, b":", digits, b": warning "], text)?;
    add_after(warning, before, text)
}
