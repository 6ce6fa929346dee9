//! The text of the dependency file.

ghost use Rattle.std.specs.Prelude.{◌≡◌, ◌++◌, IfOk, OnOk, flat_map};
ghost use Rattle.kc_load.specs.PartsOfOutcome.{closed, empty_rule, prerequisite};
ghost use Rattle.kc_language.specs.Files.{escaped, is_special, needs_backslash};
ghost use Rattle.kc_load.specs.PartsOfOutcome.{escaped_byte};
ghost use Rattle.kc_language.specs.Files as spec;

use crate::readable::ends_in;
use kc_expr::expression::SymId;
use kc_expr::names::Names;
use kc_language::files::Position;
use std::alloc::{AllocError, Global};

// Whether make treats this byte as more than a part of a name, unless a `\` is before it.
fn is_special(at: Position, byte: u8) -> bool
    ensures { result ≡ is_special at byte }
{
    match byte {
        b' ' | b'\t' | b'#' | b':' => true,
        b'%' => matches!(at, Position::Target),
        b'|' => matches!(at, Position::Prerequisite),
        _ => false,
    }
}

// Whether a `\` is written before the first of these bytes.
fn needs_backslash(at: Position, bytes: &[u8]) -> bool
    ensures { result ≡ needs_backslash at bytes.now }
{
    let mut rest = bytes;
    'along: while let [byte, behind @ ..] = rest {
        if *byte != b'\\' {
            return is_special(at, *byte);
        }
        rest = behind;
    }
    true
}

// Adds one byte of a name.
fn add_byte(byte: u8, with_backslash: bool, text: &mut Vec<u8>) -> Result<(), AllocError>
    ensures { OnOk result (text.new.items ≡ text.old.items ++ escaped_byte with_backslash byte) }
{
    if with_backslash {
        text.push(b'\\')?;
    }
    if byte == b'$' {
        text.push(b'$')?;
    }
    text.push(byte)?;
    Ok(())
}

// Adds a name in the form in which make reads it at this position.
fn add_escaped(at: Position, name: &[u8], text: &mut Vec<u8>) -> Result<(), AllocError>
    ensures { OnOk result (text.new.items ≡ text.old.items ++ escaped at name.now) }
{
    let mut rest = name;
    'along: while let [byte, behind @ ..] = rest {
        add_byte(*byte, needs_backslash(at, rest), text)?;
        rest = behind;
    }
    Ok(())
}

// Adds the prerequisites, each on a line of its own.
fn add_prerequisites(files: &Names, text: &mut Vec<u8>) -> Result<(), AllocError>
    ensures { OnOk result (text.new.items ≡ text.old.items ++ flat_map prerequisite files.now) }
{
    for i in 0..files.count() {
        text.extend_from_slice(b" \\\n ")?;
        add_escaped(Position::Prerequisite, files.name(SymId(i)), text)?;
    }
    Ok(())
}

// Adds an empty rule for each file.
fn add_empty_rules(files: &Names, text: &mut Vec<u8>) -> Result<(), AllocError>
    ensures { OnOk result (text.new.items ≡ text.old.items ++ flat_map empty_rule files.now) }
{
    for i in 0..files.count() {
        text.extend_from_slice(b"\n")?;
        add_escaped(Position::Target, files.name(SymId(i)), text)?;
        text.extend_from_slice(b":\n")?;
    }
    Ok(())
}

// Ends a line so that the next one does not continue it.
fn close(line: &mut Vec<u8>) -> Result<(), AllocError>
    ensures { OnOk result (line.new.items ≡ closed line.old.items) }
{
    if ends_in(b"\\", line) {
        line.extend_from_slice(b" |")?;
    }
    Ok(())
}

/// Writes the rule that remakes `out` if one of the files is newer, and an empty rule for each file, so that make goes
/// on if a file is deleted.
///
/// A `\` is written before each blank, tab, `#` and `:` of a name, before each `%` of a target and each `|` of a
/// prerequisite, and before each `\` of a run that ends before one of them or at the name's end. A `$` is doubled. If
/// the line of the prerequisites ends in `\`, ` |` follows. So GNU make 4.3 reads each name unchanged, except for those
/// that [`unreadable_name`](crate::unreadable_name) finds (our own).
///
/// # Errors
///
/// Fails if there is not enough memory.
pub fn rule_text(alloc: Global, out: &[u8], files: &Names) -> Result<Vec<u8>, AllocError>
    ensures { IfOk result (λ text. text.items ≡ spec.rule_text out.now files.now) }
{
    let mut text = Vec::new(alloc);
    add_escaped(Position::Target, out, &mut text)?;
    text.extend_from_slice(b":")?;
    add_prerequisites(files, &mut text)?;
    close(&mut text)?;
    text.extend_from_slice(b"\n")?;
    add_empty_rules(files, &mut text)?;
    Ok(text)
}
