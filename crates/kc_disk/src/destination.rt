//! The destination of a text.
use std::fs::{self, File, Metadata, OpenOptions};
use std::io::{self, ErrorKind};
use std::os::unix::fs::{MetadataExt, OpenOptionsExt};
use std::path::{Path, PathBuf};

// The maximum number of links that are followed for a name.
const MOST_LINKS: usize = 40;

// How often a name is followed again because it changed.
const MOST_TRIES: usize = 100;

/// The destination of a text.
#[derive(Drop)]
pub(crate) enum Destination {
    /// A regular file, which exists.
    Taken(PathBuf, Metadata),
    /// A path without a file.
    Free(PathBuf),
    /// A path without a file, at the end of links.
    FreeBehindLinks(PathBuf),
    /// A file that is written in place: not a regular file, or one below `/proc`, such as a descriptor.
    AsItStands(Metadata),
}

/// Whether both are the same file.
pub(crate) fn is_same_file(one: &Metadata, other: &Metadata) -> bool {
    one.dev() == other.dev() && one.ino() == other.ino()
}

/// Returns the error that another file is there now.
pub(crate) fn changed() -> io::Error {
    io::Error::from(ErrorKind::StaleNetworkFileHandle)
}

// The mode of a new file that is created only because the file found under the name is gone.
const PRIVATE_MODE: u32 = 0o600;

/// Opens the file found under a name to overwrite it. Lets the system create the file if it is gone, as every run
/// without `--replace` does: only then the system's rules for files of others in sticky folders apply
/// (`protected_regular` and `protected_fifos`).
///
/// # Errors
///
/// Fails if it cannot be opened, or if another file is there now.
#[inline(never)]
pub(crate) fn open_found(rt: &HostRuntime, name: &str, found: &Metadata) -> io::Result<File> {
    let file = OpenOptions::new()
        .write(true)
        .create(true)
        .mode(PRIVATE_MODE)
        .open(rt, name)?;
    let opened = file.metadata()?;
    if !is_same_file(&opened, found) {
        return Err(changed());
    }
    if opened.is_file() {
        file.set_len(0)?;
    }
    Ok(file)
}

// None if the file does not exist.
fn if_there(found: io::Result<Metadata>) -> io::Result<Option<Metadata>> {
    match found {
        Ok(found) => Ok(Some(found)),
        Err(error) if error.kind() == ErrorKind::NotFound => Ok(None),
        Err(error) => Err(error),
    }
}

// The file at the path, which may be a link.
#[inline(never)]
fn looked_at(rt: &HostRuntime, path: &PathBuf) -> io::Result<Option<Metadata>> {
    if_there(fs::symlink_metadata(rt, path.as_path()))
}

// The file that the system finds after following the links of a name.
#[inline(never)]
fn followed(rt: &HostRuntime, name: &str) -> io::Result<Option<Metadata>> {
    if_there(fs::metadata(rt, name))
}

// The target of the link at the path. If it is relative, it is in the link's folder.
#[inline(never)]
fn target_of(rt: &HostRuntime, path: &PathBuf) -> io::Result<PathBuf> {
    let target = fs::read_link(rt, path.as_path())?;
    match path.as_path().parent() {
        Some(folder) => Ok(folder.join(rt.alloc(), target.as_path())?),
        None => Ok(target),
    }
}

// Whether the file is on the file system of `/proc`.
#[inline(never)]
fn is_below_proc(rt: &HostRuntime, found: &Metadata) -> bool {
    match fs::symlink_metadata(rt, "/proc/self") {
        Ok(process) => process.dev() == found.dev(),
        Err(_) => false,
    }
}

// The destination if there is no file: a path that ends in a slash is not a file's path.
fn free(path: PathBuf, is_linked: bool) -> io::Result<Destination> {
    let text = path.as_path().as_str();
    if text.is_empty() || text.ends_with("/") {
        return Err(io::Error::from(ErrorKind::IsADirectory));
    }
    if is_linked {
        Ok(Destination::FreeBehindLinks(path))
    } else {
        Ok(Destination::Free(path))
    }
}

// The destination if this file was found there, which is not a link.
fn taken(rt: &HostRuntime, path: PathBuf, found: Metadata) -> Destination {
    if found.is_file() && !is_below_proc(rt, &found) {
        Destination::Taken(path, found)
    } else {
        Destination::AsItStands(found)
    }
}

// The end of the links from this path on, and the file there. It stops at a link below `/proc`, which may lead to a
// file without a path.
fn end_of_links(
    rt: &HostRuntime,
    start: PathBuf,
    link: Metadata,
) -> io::Result<(PathBuf, Option<Metadata>)> {
    let mut path = start;
    let mut there = Some(link);
    for _ in 0..MOST_LINKS {
        match there {
            Some(link) if link.is_symlink() && !is_below_proc(rt, &link) => {}
            end => return Ok((path, end)),
        }
        path = target_of(rt, &path)?;
        there = looked_at(rt, &path)?;
    }
    Err(io::Error::from(ErrorKind::FilesystemLoop))
}

// The destination of a name that is a link; None if the file there changed meanwhile. The system follows the links
// first, by its own rules (`protected_symlinks`): the file that it finds must be the one at their end.
fn behind_links(
    rt: &HostRuntime,
    name: &str,
    path: PathBuf,
    link: Metadata,
) -> io::Result<Option<Destination>> {
    let found = followed(rt, name)?;
    match found {
        Some(found) if !found.is_file() => return Ok(Some(Destination::AsItStands(found))),
        _ => {}
    }
    let (path, there) = end_of_links(rt, path, link)?;
    match (found, there) {
        (None, None) => Ok(Some(free(path, true)?)),
        (Some(found), Some(there)) if there.is_symlink() => Ok(Some(Destination::AsItStands(
            found,
        ))),
        (Some(found), Some(there)) if is_same_file(&found, &there) => Ok(Some(taken(
            rt, path, there,
        ))),
        _ => Ok(None),
    }
}

/// Returns the destination of a name: the end of its links, if the system follows them.
///
/// # Errors
///
/// Fails if the system refuses to follow a link or to look at a file, if links have no end, and if the name cannot be a
/// file's.
pub(crate) fn destination_of(rt: &HostRuntime, name: &str) -> io::Result<Destination> {
    for _ in 0..MOST_TRIES {
        let path = Path::new(name).to_path_buf(rt.alloc())?;
        let destination = match looked_at(rt, &path)? {
            None => Some(free(path, false)?),
            Some(link) if link.is_symlink() => behind_links(rt, name, path, link)?,
            Some(there) => Some(taken(rt, path, there)),
        };
        if let Some(destination) = destination {
            return Ok(destination);
        }
    }
    Err(changed())
}
