//! Bytes as a terminal shows them.
use std::io::{self, Write};

// Whether a terminal would interpret this byte: a control byte, except for a tab and a line feed.
fn is_control(byte: u8) -> bool {
    match byte {
        b'\t' | b'\n' => false,
        _ => byte < 0x20 || byte == 0x7f,
    }
}

// A hexadecimal digit of a value below 16.
fn digit(value: u8) -> u8 {
    match value {
        0..=9 => b'0'.wrapping_add(value),
        _ => b'a'.wrapping_add(value.wrapping_sub(10)),
    }
}

// The text shown for a control byte.
fn escaped(byte: u8) -> [u8; 4] {
    [b'\\', b'x', digit(byte >> 4), digit(byte & 15)]
}

// Writes bytes of which only the last one may be a control byte.
fn show_part<W: Write>(terminal: &mut W, part: &[u8]) -> io::Result<()> {
    match part.split_last() {
        Some((last, before)) if is_control(*last) => {
            terminal.write_all(before)?;
            terminal.write_all(&escaped(*last))
        }
        _ => terminal.write_all(part),
    }
}

/// Writes bytes to a terminal: each control byte except for tab and line feed as `\xNN`, so that texts of a tree cannot
/// control the terminal.
///
/// # Errors
///
/// Fails if they cannot be written. A prefix of them may have been written.
pub(crate) fn show<W: Write>(terminal: &mut W, bytes: &[u8]) -> io::Result<()> {
    for part in bytes.split_inclusive(|byte| is_control(*byte)) {
        show_part(terminal, part)?;
    }
    Ok(())
}
