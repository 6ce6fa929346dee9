//! Whether a file holds a text, and the content of a file.
use crate::destination::{changed, is_same_file};
use std::fs::{File, Metadata};
use std::io::{self, ErrorKind, Read};

// The number of bytes compared at once.
const BUFFER_SIZE: usize = 4_096;

/// Returns whether the file found at this path holds exactly these bytes.
///
/// # Errors
///
/// Fails if the file cannot be opened or read, or if another file is there now.
#[inline(never)]
pub(crate) fn holds_text(
    rt: &HostRuntime,
    path: &str,
    found: &Metadata,
    bytes: &[u8],
) -> io::Result<bool> {
    let mut file = File::open(rt, path)?;
    if !is_same_file(&file.metadata()?, found) {
        return Err(changed());
    }
    let mut buffer = [0u8; BUFFER_SIZE];
    let mut rest = bytes;
    for _ in 0..u64::MAX {
        let count = match file.read(&mut buffer) {
            Ok(count) => count,
            Err(error) if error.kind() == ErrorKind::Interrupted => continue,
            Err(error) => return Err(error),
        };
        if count == 0 {
            return Ok(rest.is_empty());
        }
        match rest.strip_prefix(&buffer[..count]) {
            Some(after) => rest = after,
            None => return Ok(false),
        }
    }
    Ok(false)
}

/// Returns the bytes of the file found at this path: at most its length when it is opened, plus one buffer.
///
/// # Errors
///
/// Fails if the file cannot be opened or read, if another file is there now, or if it grows meanwhile.
#[inline(never)]
pub(crate) fn bytes_of(rt: &HostRuntime, path: &str, found: &Metadata) -> io::Result<Vec<u8>> {
    let mut file = File::open(rt, path)?;
    let opened = file.metadata()?;
    if !is_same_file(&opened, found) {
        return Err(changed());
    }
    let length = usize::try_from(opened.len()).unwrap_or(usize::MAX);
    let mut buffer = [0u8; BUFFER_SIZE];
    let mut bytes = Vec::new(rt.alloc());
    for _ in 0..u64::MAX {
        let count = match file.read(&mut buffer) {
            Ok(count) => count,
            Err(error) if error.kind() == ErrorKind::Interrupted => continue,
            Err(error) => return Err(error),
        };
        if count == 0 {
            return Ok(bytes);
        }
        if bytes.len() > length {
            return Err(io::Error::from(ErrorKind::FileTooLarge));
        }
        bytes.extend_from_slice(&buffer[..count])?;
    }
    Ok(bytes)
}
