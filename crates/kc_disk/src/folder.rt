//! The files of a tree on a disk.
ghost use Rattle.std.specs.Prelude.{None};

use crate::open_file::{Devices, open_to_read};
use kc_load::{Folder, FolderFault, HashKey};
use std::fs::File;
use std::io::{self, ErrorKind, Read};
use std::random::RandomSource;

/// Reads the files of a tree from a disk by their paths (our own).
///
/// A path that does not exist has no file. A folder, a device such as `/dev/zero`, a path through a file, and a file
/// without read permission are failures of the device.
#[derive(Drop)]
pub struct SystemFolder<'a> {
    rt: &'a HostRuntime,
    // The buffer for reading files. It is allocated and zeroed only once.
    buffer: Vec<u8>,
}

impl<'a> SystemFolder<'a> {
    /// Returns a folder. Its buffer of 65,536 bytes is allocated when the first file is read.
    pub fn new(rt: &'a HostRuntime) -> SystemFolder<'a> {
        SystemFolder {
            rt,
            buffer: Vec::new(rt.alloc()),
        }
    }

    // The bytes of a file.
    fn bytes_of(&mut self, path: &str) -> io::Result<Vec<u8>> {
        self.buffer.resize(BUFFER_SIZE, 0)?;
        read_whole(self.rt, path, &mut self.buffer)
    }
}

// The number of bytes that are read at once.
const BUFFER_SIZE: usize = 65_536;

// How many bytes a file may have beyond its length. A pipe has no length.
const MOST_FURTHER_BYTES: usize = 67_108_864;

// The number of random bytes in a secret key.
const SECRET_SIZE: usize = 16;

// Opens a file of the tree, and returns how many bytes it may have. The limit also applies to a file that grows.
fn open_bounded(rt: &HostRuntime, path: &str) -> io::Result<(File, usize)> {
    let (file, opened) = open_to_read(rt, path, Devices::None)?;
    let length = usize::try_from(opened.len()).unwrap_or(usize::MAX);
    Ok((file, length.saturating_add(MOST_FURTHER_BYTES)))
}

// The bytes of a file, read through the buffer. Repeats a read that was interrupted.
fn read_whole(rt: &HostRuntime, path: &str, buffer: &mut [u8]) -> io::Result<Vec<u8>> {
    let (mut file, most) = open_bounded(rt, path)?;
    let mut bytes = Vec::new(rt.alloc());
    for _ in 0..u64::MAX {
        let count = match file.read(buffer) {
            Ok(count) => count,
            Err(error) if error.kind() == ErrorKind::Interrupted => continue,
            Err(error) => return Err(error),
        };
        if count == 0 {
            return Ok(bytes);
        }
        if count > most.saturating_sub(bytes.len()) {
            return Err(io::Error::from(ErrorKind::FileTooLarge));
        }
        bytes.extend_from_slice(&buffer[..count])?;
    }
    Ok(bytes)
}

// A key that nobody can predict. If the system has no random bytes, this is the known key: then colliding names are
// slow.
fn secret_key(rt: &HostRuntime) -> HashKey {
    let mut secret = [0u8; SECRET_SIZE];
    match rt.fill_bytes(&mut secret) {
        Ok(()) => HashKey::of_secret(&secret),
        Err(_) => HashKey::known(),
    }
}

impl<'a> Folder for SystemFolder<'a> {
    ghost state = { λ _. None };

    fn read(&mut self, path: &str) -> Result<Option<Vec<u8>>, FolderFault> {
        match self.bytes_of(path) {
            Ok(bytes) => Ok(Some(bytes)),
            Err(error) if error.kind() == ErrorKind::NotFound => Ok(None),
            Err(error) if error.kind() == ErrorKind::OutOfMemory => Err(FolderFault::Memory),
            Err(_) => Err(FolderFault::Device),
        }
    }

    fn key(&self) -> HashKey {
        secret_key(self.rt)
    }
}
