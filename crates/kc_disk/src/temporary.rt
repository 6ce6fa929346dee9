//! Temporary files, which are moved to their destinations.
ghost use Rattle.std.specs.Prelude.{◌≤◌, length, IfOk};

use crate::destination::{Destination, changed, destination_of, is_same_file, open_found};
use crate::permissions::{Trust, mode_over};
use std::fs::{self, File, Metadata, OpenOptions, Permissions};
use std::io::{self, ErrorKind, Seek, SeekFrom, Write};
use std::os::unix::fs::{MetadataExt, OpenOptionsExt, PermissionsExt};
use std::path::PathBuf;

// The maximum number of tried names of temporary files.
const MOST_NAMES: usize = 1_000;

// The mode of a new file, before the system applies the umask.
const NEW_MODE: u32 = 0o666;

// The mode of a file that only its owner may open.
const PRIVATE_MODE: u32 = 0o600;

// What a temporary file replaces.
#[derive(Drop)]
enum Replaced {
    // This file.
    File(Metadata),
    // No file.
    Nothing,
    // No file, and this name leads there through links.
    NothingBehind(String),
}

/// A temporary file, which is moved to its destination. It stays open, so only its own text can be written elsewhere.
#[derive(Drop)]
pub(crate) struct TemporaryFile {
    text: File,
    path: PathBuf,
    destination: PathBuf,
    replaced: Replaced,
}

// Creates an empty file at this path, which must not exist.
#[inline(never)]
fn create_new(rt: &HostRuntime, path: &PathBuf, mode: u32) -> io::Result<File> {
    OpenOptions::new()
        .read(true)
        .write(true)
        .create_new(true)
        .mode(mode)
        .open(rt, path.as_path())
}

// Creates an empty file in the folder of the destination, under the next free name.
fn create_temporary(
    rt: &HostRuntime,
    destination: PathBuf,
    replaced: Replaced,
    tried: &mut usize,
) -> io::Result<TemporaryFile> {
    let mode = match &replaced {
        Replaced::File(_) => PRIVATE_MODE,
        Replaced::Nothing | Replaced::NothingBehind(_) => NEW_MODE,
    };
    for count in *tried..MOST_NAMES {
        *tried = count + 1;
        let name = format!(in rt.alloc(); ".kconf-{count}")?;
        let path = destination
            .as_path()
            .with_file_name(rt.alloc(), name.as_str())?;
        match create_new(rt, &path, mode) {
            Ok(text) => {
                return Ok(TemporaryFile {
                    text,
                    path,
                    destination,
                    replaced,
                });
            }
            Err(error) if error.kind() == ErrorKind::AlreadyExists => {}
            Err(error) => return Err(error),
        }
    }
    Err(io::Error::from(ErrorKind::AlreadyExists))
}

/// The file for a text that is written with `--replace`.
#[derive(Drop)]
pub(crate) enum Started {
    /// A temporary file.
    Beside(TemporaryFile),
    /// The file at the destination, written in place.
    InPlace(File),
}

/// Creates the file for a text of this name: a temporary file, or the file at its destination, which is written in
/// place.
///
/// # Errors
///
/// Fails like `destination_of`, and if a file cannot be created or opened.
pub(crate) fn start(rt: &HostRuntime, name: &str, tried: &mut usize) -> io::Result<Started> {
    let (destination, replaced) = match destination_of(rt, name)? {
        Destination::Taken(path, found) => (path, Replaced::File(found)),
        Destination::Free(path) => (path, Replaced::Nothing),
        Destination::FreeBehindLinks(path) => (
            path,
            Replaced::NothingBehind(String::from_str(rt.alloc(), name)?),
        ),
        Destination::AsItStands(found) => {
            return Ok(Started::InPlace(open_found(rt, name, &found)?));
        }
    };
    Ok(Started::Beside(create_temporary(rt, destination, replaced, tried)?))
}

impl TemporaryFile {
    /// Writes a prefix of the bytes, and returns its length.
    pub(crate) fn write(&mut self, bytes: &[u8]) -> io::Result<usize>
        ensures { IfOk result (λ count. count ≤ length bytes.now) }
    {
        self.text.write(bytes)
    }

    // The permissions of the file, if it replaces another one.
    fn permissions_over(&self, rt: &HostRuntime, replaced: &Metadata) -> io::Result<Permissions> {
        let made = self.text.metadata()?;
        let trust = if made.uid() == replaced.uid() {
            if made.gid() == replaced.gid() {
                Trust::Same
            } else {
                Trust::Known
            }
        } else if owner_of_folder(rt, &self.destination)? == replaced.uid() {
            Trust::Known
        } else {
            Trust::Stranger
        };
        Ok(Permissions::from_mode(mode_over(replaced.mode(), trust)))
    }

    /// Gives a written file its permissions, and waits until the disk has it.
    pub(crate) fn complete(&self, rt: &HostRuntime) -> io::Result<()> {
        if let Replaced::File(replaced) = &self.replaced {
            self.text
                .set_permissions(self.permissions_over(rt, replaced)?)?;
        }
        self.text.sync_all()
    }
}

// The owner of the folder of a file.
#[inline(never)]
fn owner_of_folder(rt: &HostRuntime, file: &PathBuf) -> io::Result<u32> {
    let folder = file.as_path().with_file_name(rt.alloc(), ".")?;
    Ok(fs::metadata(rt, folder.as_path())?.uid())
}

// Lets the system create the file to which a name leads through links: it follows them by its own rules. That file must
// be the destination.
#[inline(never)]
fn make_behind_links(rt: &HostRuntime, name: &str, destination: &PathBuf) -> io::Result<()> {
    let made = OpenOptions::new()
        .write(true)
        .create(true)
        .mode(PRIVATE_MODE)
        .open(rt, name)?;
    let there = fs::symlink_metadata(rt, destination.as_path())?;
    if is_same_file(&made.metadata()?, &there) {
        Ok(())
    } else {
        Err(changed())
    }
}

// Writes the text of a temporary file to the file that it cannot replace, in place.
#[inline(never)]
fn write_in_place(
    rt: &HostRuntime,
    temporary: &TemporaryFile,
    replaced: &Metadata,
) -> io::Result<()> {
    let mut text = &temporary.text;
    text.seek(SeekFrom::Start(0))?;
    let mut place = open_found(rt, temporary.destination.as_path().as_str(), replaced)?;
    io::copy(&mut text, &mut place)?;
    place.sync_all()?;
    remove(rt, temporary);
    Ok(())
}

// Renames a temporary file to its destination.
#[inline(never)]
fn rename(rt: &HostRuntime, temporary: &TemporaryFile) -> io::Result<()> {
    fs::rename(
        rt,
        temporary.path.as_path(),
        temporary.destination.as_path(),
    )
}

/// Moves a temporary file to its destination. A file that cannot be replaced, such as a mount point, is written in
/// place.
pub(crate) fn move_to_place(rt: &HostRuntime, temporary: &TemporaryFile) -> io::Result<()> {
    if let Replaced::NothingBehind(name) = &temporary.replaced {
        make_behind_links(rt, name, &temporary.destination)?;
    }
    match (rename(rt, temporary), &temporary.replaced) {
        (Ok(()), _) => Ok(()),
        (Err(error), Replaced::File(replaced)) if is_held(&error) => write_in_place(
            rt, temporary, replaced,
        ),
        (Err(error), Replaced::NothingBehind(_)) => {
            remove_file(rt, &temporary.destination);
            Err(error)
        }
        (Err(error), _) => Err(error),
    }
}

// Whether the error says that the file cannot be replaced.
fn is_held(error: &io::Error) -> bool {
    matches!(
        error.kind(),
        ErrorKind::ResourceBusy | ErrorKind::CrossesDevices
    )
}

// Removes a file. Ignores errors.
#[inline(never)]
fn remove_file(rt: &HostRuntime, path: &PathBuf) {
    let _ = fs::remove_file(rt, path.as_path());
}

/// Removes a temporary file. Ignores errors.
pub(crate) fn remove(rt: &HostRuntime, temporary: &TemporaryFile) {
    remove_file(rt, &temporary.path);
}
