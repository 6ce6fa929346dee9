//! The pieces in which input files are read.

use crate::line::IncludedName;
use crate::parts::{Part, parts_of};
use crate::places::places_of;
use crate::texts::{Content, InputText, Inputs};
use kc_io::Fault;
use std::alloc::{AllocError, Global};

// The maximum number of files that are open at once: an input file, and the files that include one another from there.
const MOST_OPEN: usize = 64;

// The maximum number of steps in which an input file is split. Each step gives a piece, or opens or ends a file.
const MOST_STEPS: usize = 1_048_576;

/// The content of a piece.
#[derive(Clone, Copy)]
pub(crate) enum Given<'t> {
    /// One empty line for each line before these bytes in their file, and then the bytes.
    Lines(usize, &'t [u8]),
    /// The file does not exist, and may be missing.
    Missing,
    /// The file cannot be read, or must not be included here.
    Unreadable(Fault),
}

/// A piece of the input: the name of the file of its lines, and its content. Its lines have the same numbers as in
/// their file.
#[derive(Clone, Copy)]
pub struct Piece<'t> {
    pub(crate) name: &'t str,
    pub(crate) given: Given<'t>,
}

// A file that is split, and its next part.
#[derive(Drop)]
struct Open<'t> {
    name: &'t str,
    parts: Vec<Part<'t>>,
    next: usize,
}

// The state of splitting: the open files, the innermost last, and the pieces so far.
#[derive(Drop)]
struct Taking<'t> {
    open: Vec<Open<'t>>,
    pieces: Vec<Piece<'t>>,
}

impl<'t> Taking<'t> {
    // Starts to split a file, or adds what replaces it.
    fn begin(&mut self, alloc: Global, file: &'t InputText) -> Result<(), AllocError> {
        let name = file.name.as_str();
        match &file.content {
            Content::Text(text) => self.open.push(Open {
                name,
                parts: parts_of(alloc, text)?,
                next: 0,
            })?,
            Content::Missing => self.pieces.push(Piece {
                name,
                given: Given::Missing,
            })?,
            Content::Unreadable(fault) => self.refuse(name, *fault)?,
        }
        Ok(())
    }

    // Adds that a file cannot be read, and ends there.
    fn refuse(&mut self, name: &'t str, fault: Fault) -> Result<(), AllocError> {
        self.pieces.push(Piece {
            name,
            given: Given::Unreadable(fault),
        })?;
        self.open.clear();
        Ok(())
    }

    // Whether a file of this name is open.
    fn is_open(&self, name: &str) -> bool {
        for file in &self.open {
            if file.name == name {
                return true;
            }
        }
        false
    }

    // Returns the name of the innermost open file and its next part.
    fn next_part(&mut self) -> Option<(&'t str, Option<Part<'t>>)> {
        let file = self.open.last_mut()?;
        let part = file.parts.get(file.next).copied();
        file.next = file.next.saturating_add(1);
        Some((file.name, part))
    }
}

// Whether the last piece is that of a file that cannot be read.
fn ends_unreadable(pieces: &[Piece<'_>]) -> bool {
    match pieces.last() {
        Some(piece) => matches!(piece.given, Given::Unreadable(_)),
        None => false,
    }
}

impl Inputs {
    // Continues with the file that a line of an open file includes. It cannot be read if it is missing, if it is
    // already open, or if too many files are open.
    fn include_into<'t>(
        &'t self,
        alloc: Global,
        name: IncludedName<'t>,
        includer: &'t str,
        taking: &mut Taking<'t>,
    ) -> Result<(), AllocError> {
        let places = places_of(alloc, self.folder.as_str(), includer, name)?;
        let Some(file) = self.file_at(&places) else {
            return taking.refuse(includer, Fault::Refused);
        };
        let name = file.name.as_str();
        if !file.is_there() || taking.open.len() >= MOST_OPEN || taking.is_open(name) {
            return taking.refuse(name, Fault::Refused);
        }
        taking.begin(alloc, file)
    }

    // Takes the next step, and returns whether there was one.
    fn step<'t>(&'t self, alloc: Global, taking: &mut Taking<'t>) -> Result<bool, AllocError> {
        let Some((name, part)) = taking.next_part() else {
            return Ok(false);
        };
        match part {
            Some(Part::Lines(first, bytes)) => taking.pieces.push(Piece {
                name,
                given: Given::Lines(first, bytes),
            })?,
            Some(Part::Include(included)) => self.include_into(alloc, included, name, taking)?,
            None => {
                let _ = taking.open.pop();
            }
        }
        Ok(true)
    }

    // Splits a file.
    fn take_apart<'t>(
        &'t self,
        alloc: Global,
        file: &'t InputText,
        taking: &mut Taking<'t>,
    ) -> Result<(), AllocError> {
        taking.begin(alloc, file)?;
        for _ in 0..MOST_STEPS {
            if !self.step(alloc, taking)? {
                return Ok(());
            }
        }
        taking.refuse(file.name.as_str(), Fault::Refused)
    }

    /// Returns the pieces of the input files that were read with these numbers, counted from 0, one after another. They
    /// end with the first file that cannot be read: one that the device refuses, one that includes itself, directly or
    /// through others, the 65th that would be open, and one that gives too many pieces. (Our own.)
    ///
    /// # Errors
    ///
    /// Fails if there is not enough memory.
    pub fn pieces<'t>(
        &'t self,
        alloc: Global,
        inputs: &[usize],
    ) -> Result<Vec<Piece<'t>>, AllocError> {
        let mut taking = Taking {
            open: Vec::new(alloc),
            pieces: Vec::new(alloc),
        };
        for input in inputs {
            if ends_unreadable(&taking.pieces) {
                break;
            }
            if let Some(file) = self.own.get(*input) {
                self.take_apart(alloc, file, &mut taking)?;
            }
        }
        Ok(taking.pieces)
    }
}

/// Returns the names of the pieces after the first. Fails only if there is not enough memory. (Our own.)
pub fn later_names(alloc: Global, pieces: &[Piece<'_>]) -> Result<Vec<String>, AllocError> {
    let mut names = Vec::new(alloc);
    for piece in pieces.iter().skip(1) {
        names.push(String::from_str(alloc, piece.name)?)?;
    }
    Ok(names)
}
