//! Puts files into a map, with repeated parts, and formats a refusal as a text.

use kc_diagnostics::cause_parts;
use kc_read::{FileMap, Refusal};
use std::alloc::{AllocError, Global};

/// Puts a copy of a file's bytes under its name.
pub(crate) fn put(
    alloc: Global,
    map: &mut FileMap,
    name: &[u8],
    bytes: &[u8],
) -> Result<(), AllocError> {
    let name = Vec::from_slice(alloc, name)?;
    map.insert(name, Vec::from_slice(alloc, bytes)?)
}

/// Puts copies of files, by name.
pub(crate) fn put_all(
    alloc: Global,
    map: &mut FileMap,
    files: &[(&str, &[u8])],
) -> Result<(), AllocError> {
    for (name, bytes) in files {
        put(alloc, map, name.as_bytes(), bytes)?;
    }
    Ok(())
}

/// Whether the files of these names have these bytes.
pub(crate) fn has_files(map: &FileMap, files: &[(&str, &[u8])]) -> bool {
    for (name, bytes) in files {
        if map.get(name.as_bytes()) != Some(*bytes) {
            return false;
        }
    }
    true
}

/// Whether the map has exactly those of these names that it should have.
pub(crate) fn has_names(map: &FileMap, names: &[(&str, bool)]) -> bool {
    for (name, held) in names {
        if map.get(name.as_bytes()).is_some() != *held {
            return false;
        }
    }
    true
}

/// A part of a file: a text and how often it is repeated. In it `~` is a line feed, `^` a carriage return, `@` a tab,
/// and `%` a name made from the number of earlier repetitions.
pub(crate) type Piece<'a> = (usize, &'a [u8]);

// Adds the number, written with the letters A to P.
fn number_into(number: usize, bytes: &mut Vec<u8>) -> Result<(), AllocError> {
    let mut rest = number;
    for _ in 0..5 {
        let digit = rest % 16;
        bytes.push(b'A' + digit as u8)?;
        rest /= 16;
    }
    Ok(())
}

/// Adds the bytes of these parts.
pub(crate) fn pieces_into(pieces: &[Piece], bytes: &mut Vec<u8>) -> Result<(), AllocError> {
    for (count, text) in pieces {
        for number in 0..*count {
            for sign in *text {
                let byte = match *sign {
                    b'~' => b'\n',
                    b'^' => b'\r',
                    b'@' => b'\t',
                    other => other,
                };
                if byte == b'%' {
                    number_into(number, bytes)?;
                } else {
                    bytes.push(byte)?;
                }
            }
        }
    }
    Ok(())
}

/// Puts a file with these parts under its name; puts no file if there are no parts.
pub(crate) fn put_pieces(
    alloc: Global,
    map: &mut FileMap,
    name: &[u8],
    pieces: &[Piece],
) -> Result<(), AllocError> {
    if pieces.is_empty() {
        return Ok(());
    }
    let mut bytes = Vec::new(alloc);
    pieces_into(pieces, &mut bytes)?;
    put(alloc, map, name, &bytes)
}

/// Adds the bytes, each as one letter. A byte is left out if there is not enough memory. Then the text differs from the
/// expected one.
pub(crate) fn letters_into(bytes: &[u8], text: &mut String) {
    for byte in bytes {
        let _ = text.push(char::from(*byte));
    }
}

/// Adds the refusal as `FILE:LINE TEXT`, or less if it has no location.
pub(crate) fn refusal_into(refusal: &Refusal, text: &mut String) {
    if let Some((file, line)) = &refusal.location {
        letters_into(file, text);
        let _ = write!(text, ":{line} ");
    }
    for part in cause_parts(&refusal.cause) {
        letters_into(part, text);
    }
}
