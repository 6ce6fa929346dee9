//! Input files with the files that they include, read at once.
ghost use Rattle.std.specs.Prelude.{◌≤◌, length};

use crate::parts::{Part, parts_of};
use crate::places::places_of;
use kc_io::{Device, Fault};
use std::alloc::{AllocError, Global};

// The number of bytes requested at once.
const PIECE: usize = 16_384;

// The maximum number of bytes of an input file, since all of them are kept.
const MOST_BYTES: usize = 67_108_864;

// The maximum number of files that all input files together may include.
const MOST_FILES: usize = 16_384;

/// The content of a file.
#[derive(Drop)]
pub(crate) enum Content {
    /// The bytes of the file.
    Text(Vec<u8>),
    /// The file does not exist, and may be missing.
    Missing,
    /// The file cannot be read.
    Unreadable(Fault),
}

/// An input file: its name and its content.
#[derive(Drop)]
pub(crate) struct InputText {
    pub name: String,
    pub content: Content,
}

/// Input files and the files that they include, as they were read (our own). An included file is read once.
#[derive(Drop)]
pub struct Inputs {
    // The folder of the included files.
    pub(crate) folder: String,
    // The input files, in the order in which they were read.
    pub(crate) own: Vec<InputText>,
    // The files that they include, each once.
    pub(crate) included: Vec<InputText>,
}

// Reads the open file to its end.
fn read_to_end<D: Device>(
    alloc: Global,
    device: &mut D,
    name: &str,
) -> Result<Content, AllocError> {
    let mut buffer = [0u8; PIECE];
    let mut bytes = Vec::new(alloc);
    for _ in 0..u64::MAX {
        let count = match device.read(name, &mut buffer) {
            Ok(0) => return Ok(Content::Text(bytes)),
            Ok(count) => count,
            Err(fault) => return Ok(Content::Unreadable(fault)),
        };
        if count > MOST_BYTES.saturating_sub(bytes.len()) {
            return Ok(Content::Unreadable(Fault::Refused));
        }
        bytes.extend_from_slice(&buffer[..count])?;
    }
    Ok(Content::Unreadable(Fault::Refused))
}

// Reads a file.
fn read_file<D: Device>(
    alloc: Global,
    device: &mut D,
    name: &str,
    may_be_missing: bool,
) -> Result<InputText, AllocError> {
    let content = match device.open(name, may_be_missing) {
        Ok(true) => read_to_end(alloc, device, name)?,
        Ok(false) => Content::Missing,
        Err(fault) => Content::Unreadable(fault),
    };
    let name = String::from_str(alloc, name)?;
    Ok(InputText { name, content })
}

impl InputText {
    /// Whether the file exists.
    pub(crate) fn is_there(&self) -> bool {
        !matches!(self.content, Content::Missing)
    }
}

// The file of this name among these.
fn file_of<'t>(files: &'t [InputText], name: &str) -> Option<&'t InputText> {
    for file in files {
        if file.name.as_str() == name {
            return Some(file);
        }
    }
    None
}

// The paths at which each file is searched that a file includes.
fn places_in(
    alloc: Global,
    folder: &str,
    file: &InputText,
) -> Result<Vec<Vec<String>>, AllocError> {
    let mut all = Vec::new(alloc);
    if let Content::Text(text) = &file.content {
        for part in &parts_of(alloc, text)? {
            if let Part::Include(name) = part {
                all.push(places_of(alloc, folder, file.name.as_str(), *name)?)?;
            }
        }
    }
    Ok(all)
}

impl Inputs {
    /// Returns an empty value. Included files are in this folder. (Our own.)
    ///
    /// # Errors
    ///
    /// Fails if there is not enough memory.
    pub fn new(alloc: Global, folder: &str) -> Result<Inputs, AllocError> {
        Ok(Inputs {
            folder: String::from_str(alloc, folder)?,
            own: Vec::new(alloc),
            included: Vec::new(alloc),
        })
    }

    // Reads the file at this path, unless it was read before, and returns whether it exists.
    fn include<D: Device>(
        &mut self,
        alloc: Global,
        device: &mut D,
        path: &str,
        may_be_missing: bool,
    ) -> Result<bool, AllocError> {
        if let Some(file) = file_of(&self.included, path) {
            return Ok(file.is_there());
        }
        let file = read_file(alloc, device, path, may_be_missing)?;
        let is_there = file.is_there();
        self.included.push(file)?;
        Ok(is_there)
    }

    // Reads the files at these paths up to the first that exists. Only the file at the last path must exist.
    fn include_first<D: Device>(
        &mut self,
        alloc: Global,
        device: &mut D,
        paths: &[String],
    ) -> Result<(), AllocError> {
        for path in paths {
            let may_be_missing = paths.last() != Some(path);
            if self.include(alloc, device, path.as_str(), may_be_missing)? {
                return Ok(());
            }
        }
        Ok(())
    }

    // Reads the files that a file includes, which are searched at these paths.
    fn include_all<D: Device>(
        &mut self,
        alloc: Global,
        device: &mut D,
        all: &[Vec<String>],
    ) -> Result<(), AllocError> {
        for paths in all {
            self.include_first(alloc, device, paths)?;
        }
        Ok(())
    }

    /// Returns the file at the first of these paths that exists, as it was read, otherwise the one at the last path.
    pub(crate) fn file_at(&self, paths: &[String]) -> Option<&InputText> {
        let mut found = None;
        for path in paths {
            if let Some(file) = file_of(&self.included, path.as_str()) {
                if file.is_there() {
                    return Some(file);
                }
                found = Some(file);
            }
        }
        found
    }

    /// Reads an input file, and the files that it includes, directly or through others. A file that cannot be read is
    /// not an error here: its lines are needed later. (Our own.)
    ///
    /// # Errors
    ///
    /// Fails if there is not enough memory.
    pub fn read<D: Device>(
        &mut self,
        alloc: Global,
        device: &mut D,
        name: &str,
        may_be_missing: bool,
    ) -> Result<(), AllocError> {
        let file = read_file(alloc, device, name, may_be_missing)?;
        let mut next = self.included.len();
        let places = places_in(alloc, self.folder.as_str(), &file)?;
        self.own.push(file)?;
        self.include_all(alloc, device, &places)?;
        for _ in 0..MOST_FILES {
            if next >= self.included.len() {
                return Ok(());
            }
            let places = places_in(alloc, self.folder.as_str(), &self.included[next])?;
            self.include_all(alloc, device, &places)?;
            next += 1;
        }
        Ok(())
    }
}
