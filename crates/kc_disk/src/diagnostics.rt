//! The target of the diagnostics.
use crate::terminal::show;
use std::io::{self, IsTerminal, Write};
use std::os::fd::AsFd;

// The error number of the system for a descriptor that is not open.
const NOT_OPEN: i32 = 9;

// How many bytes of lines in parts are written at once.
const ROOM: usize = 65_536;

// The target of the diagnostics.
#[derive(Drop)]
enum Destination {
    StandardError,
    // Standard error is a terminal.
    Terminal,
    // Standard error was closed at the start: its descriptor may now be that of another file.
    Closed,
    Kept(Vec<u8>),
}

/// The diagnostics: they go to standard error, or are kept in memory (our own).
#[derive(Drop)]
pub(crate) struct Diagnostics<'a> {
    rt: &'a HostRuntime,
    destination: Destination,
    // The parts of the next lines, joined.
    joined: Vec<u8>,
}

impl<'a> Diagnostics<'a> {
    // If there is not enough memory, parts are not joined.
    fn new(rt: &'a HostRuntime, destination: Destination) -> Diagnostics<'a> {
        let mut joined = Vec::new(rt.alloc());
        let _ = joined.reserve(ROOM);
        Diagnostics {
            rt,
            destination,
            joined,
        }
    }

    /// Returns diagnostics that go to standard error. Call this before you open any file.
    pub(crate) fn of_process(rt: &'a HostRuntime) -> Diagnostics<'a> {
        let destination = match rt.stderr().as_fd().try_clone_to_owned() {
            Err(error) if error.raw_os_error() == Some(NOT_OPEN) => Destination::Closed,
            _ if rt.stderr().is_terminal() => Destination::Terminal,
            _ => Destination::StandardError,
        };
        Diagnostics::new(rt, destination)
    }

    /// Returns diagnostics that are kept in memory.
    pub(crate) fn keeping(rt: &'a HostRuntime) -> Diagnostics<'a> {
        Diagnostics::new(rt, Destination::Kept(Vec::new(rt.alloc())))
    }

    /// Returns the diagnostics that were kept; empty if they went to standard error.
    pub(crate) fn into_kept(self) -> Vec<u8> {
        let Diagnostics {
            rt,
            destination,
            joined: _,
        } = self;
        match destination {
            Destination::Kept(bytes) => bytes,
            Destination::StandardError | Destination::Terminal | Destination::Closed => Vec::new(
                rt.alloc(),
            ),
        }
    }

    // Writes the joined parts.
    fn flush(&mut self) -> io::Result<()> {
        if self.joined.is_empty() {
            return Ok(());
        }
        let written = write(self.rt, &mut self.destination, &self.joined);
        self.joined.clear();
        written
    }

    /// Writes the parts, one after another. Uses one system call if they have at most 65,536 bytes and there was memory
    /// to join them.
    ///
    /// # Errors
    ///
    /// Fails if they cannot be written. A prefix of them may have been written.
    pub(crate) fn write_parts(&mut self, parts: &[&[u8]]) -> io::Result<()> {
        self.joined.clear();
        for part in parts {
            if part.len() <= self.joined.capacity().saturating_sub(self.joined.len()) {
                self.joined.extend_from_slice(part)?;
            } else {
                self.flush()?;
                write(self.rt, &mut self.destination, part)?;
            }
        }
        self.flush()
    }
}

// Writes these bytes to the target.
fn write(rt: &HostRuntime, destination: &mut Destination, bytes: &[u8]) -> io::Result<()> {
    match destination {
        Destination::StandardError => rt.stderr().write_all(bytes),
        Destination::Terminal => show(&mut rt.stderr(), bytes),
        Destination::Closed => Err(io::Error::from_raw_os_error(NOT_OPEN)),
        Destination::Kept(kept) => {
            kept.extend_from_slice(bytes)?;
            Ok(())
        }
    }
}
