//! Files that are opened for reading.
use std::fs::{self, File, FileType, Metadata};
use std::io::{self, ErrorKind};
use std::os::unix::fs::{FileTypeExt, MetadataExt};

// The number of the device `/dev/null` (Linux: major 1, minor 3).
const NULL_DEVICE: u64 = 0x103;

// The major numbers of terminal devices (Linux): those of `/dev/tty1`, of `/dev/tty`, and of all pseudoterminals.
const TERMINAL_MAJORS: &[u64] = &[4, 5, 136, 137, 138, 139, 140, 141, 142, 143];

/// Which devices may be read.
#[derive(Clone, Copy, PartialEq, Eq)]
pub(crate) enum Devices {
    /// None.
    None,
    /// `/dev/null` and terminals.
    NullAndTerminals,
}

fn is_device(kind: FileType) -> bool {
    kind.is_char_device() || kind.is_block_device()
}

// Whether this is `/dev/null` or a terminal.
fn is_null_or_terminal(found: &Metadata) -> bool {
    let major = (found.rdev() >> 8) & 0xfff;
    found.file_type().is_char_device()
        && (found.rdev() == NULL_DEVICE || TERMINAL_MAJORS.contains(&major))
}

// Fails for any other device: it may be endless, and opening it may have an effect.
fn refuse_device(found: &Metadata, devices: Devices) -> io::Result<()> {
    if !is_device(found.file_type()) {
        return Ok(());
    }
    if devices == Devices::NullAndTerminals && is_null_or_terminal(found) {
        return Ok(());
    }
    Err(io::Error::from(ErrorKind::InvalidInput))
}

/// Returns whether the name is a pipe, a terminal or the null device: what is read there cannot be written back.
/// `/dev/null` itself takes all.
#[inline(never)]
pub(crate) fn has_no_place(rt: &HostRuntime, path: &str) -> bool {
    match fs::metadata(rt, path) {
        Ok(found) => {
            path != "/dev/null" && (found.file_type().is_fifo() || is_null_or_terminal(&found))
        }
        Err(_) => false,
    }
}

/// Opens a file for reading, and returns its metadata. Looks at the name first, and does not open a device that may not
/// be read. Looks again at the file that was opened, since it may be another one by now.
///
/// # Errors
///
/// Fails if it cannot be opened, and for a device that may not be read.
#[inline(never)]
pub(crate) fn open_to_read(
    rt: &HostRuntime,
    path: &str,
    devices: Devices,
) -> io::Result<(File, Metadata)> {
    refuse_device(&fs::metadata(rt, path)?, devices)?;
    let file = File::open(rt, path)?;
    let opened = file.metadata()?;
    refuse_device(&opened, devices)?;
    Ok((file, opened))
}
