//! The system calls that read files, create them and write diagnostics.
ghost use Rattle.std.specs.Prelude.{◌≡◌, ◌≤◌, ◌-◌, None, length, IfOk};
ghost use Rattle.kc_disk.specs.Limits.{most_reads};

use crate::destination::{Destination, destination_of};
use crate::diagnostics::Diagnostics;
use crate::held::{Held, Report};
use crate::open_file::{Devices, open_to_read};
use crate::same_text::{bytes_of, holds_text};
use crate::temporary::{Started, TemporaryFile, move_to_place, remove, start};
use crate::terminal::show;
use kc_display::{Showing, difference};
use kc_hints::Facts;
use kc_io::{Device, Fault, Site};
use std::alloc::AllocError;
use std::cell::Cell;
use std::fs::{File, Metadata};
use std::io::{self, ErrorKind, IsTerminal, Read, Write};
use std::mem;

/// The maximum number of reads that return bytes. A file that gives more is endless.
const MOST_READS: u64 = 1 << 63;

/// The name of standard output, to which a text of this name is written.
const STANDARD_OUTPUT: &str = "/dev/stdout";

/// The only name that may be both read and written without being a regular file.
const NULL: &str = "/dev/null";

// Where the text is written.
#[derive(Drop)]
enum Writing {
    // Nowhere.
    Nothing,
    // To standard output, if it is a terminal.
    StandardOutput,
    // To standard output, which is a terminal.
    StandardTerminal,
    // To this terminal.
    Terminal(File),
    // To this file, in place.
    InPlace(File),
    // To this temporary file, which is moved to its destination.
    Beside(TemporaryFile),
}

/// The files of a disk and the diagnostics of the process (our own). It records nothing.
///
/// With `--replace` the destination of a text is the end of the links of its name, if the system follows them. The
/// temporary file is in the same folder, as `.kconf-N` with the next free N, starting at 0. Only its owner may open it
/// until it gets the permissions of the file that it replaces. A file that is not regular, or is below `/proc` like a
/// descriptor, is written at once and not replaced.
///
/// Without `--replace` a text named exactly `/dev/stdout` goes to the standard output of the process, which is not
/// opened again: a file to which the output is appended keeps its content.
#[derive(Drop)]
pub struct SystemDevice<'a> {
    rt: &'a HostRuntime,
    diagnostics: Diagnostics<'a>,
    // How diagnostics are printed.
    showing: Showing,
    // The system's reason for the last failure, for a hint.
    reason: &'static str,
    // The difference of the last file that was compared, printed after the next diagnostic.
    difference: Cell<Option<Vec<u8>>>,
    // The diagnostics that wait for the facts of their hints, if any may wait.
    held: Option<Held>,
    // The file that is being read.
    reading: Option<File>,
    // The names that were read and are not regular files. No text is written to such a name.
    special: Vec<String>,
    // The number of reads that returned bytes.
    reads: u64,
    // Where the text is written.
    writing: Writing,
    // The complete temporary files, in the order in which they are moved.
    whole: Vec<Option<TemporaryFile>>,
    // The number of tried names of temporary files since there was no temporary file.
    tried: usize,
}

impl<'a> SystemDevice<'a> {
    fn with(rt: &'a HostRuntime, diagnostics: Diagnostics<'a>) -> SystemDevice<'a> {
        SystemDevice {
            rt,
            diagnostics,
            showing: Showing::PLAIN,
            reason: "",
            difference: Cell::new(None),
            held: None,
            reading: None,
            special: Vec::new(rt.alloc()),
            reads: 0,
            writing: Writing::Nothing,
            whole: Vec::new(rt.alloc()),
            tried: 0,
        }
    }

    /// Returns a device that writes diagnostics to standard error. Call this before you open any file: if standard
    /// error is closed, each diagnostic fails.
    pub fn new(rt: &'a HostRuntime) -> SystemDevice<'a> {
        SystemDevice::with(rt, Diagnostics::of_process(rt))
    }

    /// Returns a device that keeps the diagnostics in memory, for `into_diagnostics`.
    pub fn keeping(rt: &'a HostRuntime) -> SystemDevice<'a> {
        SystemDevice::with(rt, Diagnostics::keeping(rt))
    }

    /// Sets how diagnostics are printed from now on.
    pub fn show(&mut self, showing: Showing) {
        self.showing = showing;
    }

    /// Holds diagnostics back from now on: from the first one whose hint may start with a fact, until `take_held`.
    pub(crate) fn hold(&mut self) {
        self.held = Some(Held::new(self.rt.alloc()));
    }

    /// Returns what was held back, if holding back was on, and turns it off.
    pub(crate) fn take_held(&mut self) -> Option<Held> {
        mem::replace(&mut self.held, None)
    }

    // The report of these parts, with its reason and difference.
    fn report_of(&self, parts: &[&[u8]]) -> Result<Report, AllocError> {
        let mut text = Vec::new(self.rt.alloc());
        for part in parts {
            text.extend_from_slice(part)?;
        }
        Ok(Report {
            text,
            reason: self.reason,
            difference: self.difference.replace(None),
        })
    }

    /// Writes reports in their printed form, with these facts.
    ///
    /// # Errors
    ///
    /// Fails if they cannot be written.
    pub(crate) fn write_reports(
        &mut self,
        reports: &[Report],
        facts: &Facts<'_>,
    ) -> io::Result<()> {
        write_all(self.rt, self.showing, &mut self.diagnostics, reports, facts)
    }

    // Writes the held back reports, without facts.
    fn let_go(&mut self) -> io::Result<()>
        ensures { self.new.reads ≡ self.old.reads }
    {
        match &mut self.held {
            Some(held) => {
                let reports = held.take_reports(self.rt.alloc());
                write_all(
                    self.rt,
                    self.showing,
                    &mut self.diagnostics,
                    &reports,
                    &Facts::none(),
                )
            }
            None => Ok(()),
        }
    }

    // Holds a report back. Returns it if it need not wait, or if there is not enough memory.
    fn hold_back(&mut self, report: Report) -> Option<Report>
        ensures { self.new.reads ≡ self.old.reads }
    {
        match &mut self.held {
            Some(held) if self.showing.hints => held.take(self.rt.alloc(), report),
            _ => Some(report),
        }
    }

    // Writes a report without facts, after the held back ones.
    fn write_now(&mut self, report: &Report) -> io::Result<()>
        ensures { self.new.reads ≡ self.old.reads }
    {
        self.let_go()?;
        write_report(
            self.rt,
            self.showing,
            &mut self.diagnostics,
            report,
            &Facts::none(),
        )
    }

    // Writes parts unchanged, after the held back reports.
    fn write_plain(&mut self, parts: &[&[u8]]) -> io::Result<()>
        ensures { self.new.reads ≡ self.old.reads }
    {
        self.let_go()?;
        self.diagnostics.write_parts(parts)
    }

    // Writes the diagnostics in their printed form, or holds them back.
    fn tell(&mut self, parts: &[&[u8]]) -> io::Result<()>
        ensures { self.new.reads ≡ self.old.reads }
    {
        match self.report_of(parts) {
            Ok(report) => match self.hold_back(report) {
                Some(report) => self.write_now(&report),
                None => Ok(()),
            },
            Err(_) => self.write_plain(parts),
        }
    }

    // Keeps the file of this name, if hints may need its lines.
    fn keep_input(&mut self, name: &str) {
        if let Some(held) = &mut self.held {
            held.begin_input(self.rt.alloc(), name);
        }
    }

    // Keeps bytes of the file that is being read.
    fn keep_bytes(&mut self, bytes: &[u8])
        ensures { self.new.reads ≡ self.old.reads }
    {
        if let Some(held) = &mut self.held {
            held.add_bytes(bytes);
        }
    }

    // Keeps the difference of the file at this path and these bytes. Keeps nothing if there is not enough memory, or if
    // the file cannot be read.
    fn keep_difference(&self, name: &str, path: &str, found: &Metadata, bytes: &[u8]) {
        let kept = match bytes_of(self.rt, path, found) {
            Ok(held) => difference(self.rt.alloc(), name, &held, bytes).ok(),
            Err(_) => None,
        };
        self.difference.set(kept);
    }

    // The result of a system call as a device's result. Keeps the reason of an error for a hint.
    fn answer(&mut self, done: io::Result<()>) -> Result<(), Fault> {
        match done {
            Ok(()) => Ok(()),
            Err(error) => Err(self.fault(&error)),
        }
    }

    // The fault of an error. Keeps its reason for a hint.
    fn fault(&mut self, error: &io::Error) -> Fault {
        self.reason = reason_of(error);
        fault_of(error)
    }

    /// Returns the diagnostics that were kept; empty if they went to standard error.
    pub fn into_diagnostics(self) -> Vec<u8> {
        let SystemDevice { diagnostics, .. } = self;
        diagnostics.into_kept()
    }

    // Opens an input file. Keeps its name if it is not a regular file.
    fn open_input(&mut self, name: &str) -> io::Result<()> {
        let (file, opened) = open_to_read(self.rt, name, Devices::NullAndTerminals)?;
        if !opened.is_file() && name != NULL {
            self.special.push(String::from_str(self.rt.alloc(), name)?)?;
        }
        self.reading = Some(file);
        self.keep_input(name);
        Ok(())
    }

    // Creates an empty file, in place or as a temporary file. Standard output exists already and keeps its content.
    fn make(&mut self, site: Site, name: &str) -> io::Result<()> {
        if self.special.iter().any(|read| read.as_str() == name) {
            return Err(io::Error::from(ErrorKind::InvalidInput));
        }
        let made = match site {
            Site::Place if name == STANDARD_OUTPUT => standard_output(self.rt),
            Site::Place => in_place(create(self.rt, name)?),
            Site::Beside => match start(self.rt, name, &mut self.tried)? {
                Started::Beside(temporary) => Writing::Beside(temporary),
                Started::InPlace(file) => in_place(file),
            },
        };
        self.writing = made;
        Ok(())
    }

    // Closes the file that is written. A temporary file then has its permissions, and is on the disk.
    fn finish(&mut self, site: Site) -> io::Result<()> {
        if let Site::Place = site {
            self.writing = Writing::Nothing;
            return Ok(());
        }
        if let Writing::Beside(temporary) = &self.writing {
            temporary.complete(self.rt)?;
        }
        self.whole.reserve(1)?;
        match mem::replace(&mut self.writing, Writing::Nothing) {
            Writing::Nothing | Writing::StandardOutput | Writing::StandardTerminal => {}
            Writing::Terminal(_file) | Writing::InPlace(_file) => self.whole.push(None)?,
            Writing::Beside(temporary) => self.whole.push(Some(temporary))?,
        }
        Ok(())
    }

    // Tries all names again once no temporary file is left.
    fn try_names_anew(&mut self) {
        if self.whole.is_empty() {
            self.tried = 0;
        }
    }

    // Moves the first of the complete files to its destination.
    fn move_first(&mut self) -> io::Result<()> {
        if let Some(Some(temporary)) = self.whole.first() {
            move_to_place(self.rt, temporary)?;
        }
        if !self.whole.is_empty() {
            let _ = self.whole.remove(0);
        }
        self.try_names_anew();
        Ok(())
    }
}

// Writes a report in its printed form with these facts, or unchanged if there is not enough memory.
fn write_report(
    rt: &HostRuntime,
    showing: Showing,
    diagnostics: &mut Diagnostics<'_>,
    report: &Report,
    facts: &Facts<'_>,
) -> io::Result<()> {
    match report.shown(rt.alloc(), showing, facts) {
        Ok(shown) => diagnostics.write_parts(&[&shown]),
        Err(_) => diagnostics.write_parts(&report.parts()),
    }
}

// Writes reports, one after another.
fn write_all(
    rt: &HostRuntime,
    showing: Showing,
    diagnostics: &mut Diagnostics<'_>,
    reports: &[Report],
    facts: &Facts<'_>,
) -> io::Result<()> {
    for report in reports {
        write_report(rt, showing, diagnostics, report, facts)?;
    }
    Ok(())
}

// Empties the file of this name, or creates it.
#[inline(never)]
fn create(rt: &HostRuntime, name: &str) -> io::Result<File> {
    File::create(rt, name)
}

// The target of a text that is written in place.
fn in_place(file: File) -> Writing {
    if file.is_terminal() {
        Writing::Terminal(file)
    } else {
        Writing::InPlace(file)
    }
}

// The target of a text for standard output.
fn standard_output(rt: &HostRuntime) -> Writing {
    if rt.stdout().is_terminal() {
        Writing::StandardTerminal
    } else {
        Writing::StandardOutput
    }
}

// Reads on in the open file, and closes it at its end.
fn read_on(reading: &mut Option<File>, buffer: &mut [u8]) -> io::Result<usize>
    ensures { IfOk result (λ count. count ≤ length buffer.old) }
{
    let Some(file) = reading else {
        return Ok(0);
    };
    let count = file.read(buffer)?;
    if count == 0 {
        *reading = None;
    }
    Ok(count)
}

// Writes bytes to their target, and returns how many were taken. Standard output takes all.
fn write_on(rt: &HostRuntime, writing: &mut Writing, bytes: &[u8]) -> io::Result<usize>
    ensures { IfOk result (λ count. count ≤ length bytes.now) }
{
    match writing {
        Writing::Nothing => Ok(0),
        Writing::StandardOutput => {
            rt.stdout().write_all(bytes)?;
            Ok(bytes.len())
        }
        Writing::StandardTerminal => {
            show(&mut rt.stdout(), bytes)?;
            Ok(bytes.len())
        }
        Writing::Terminal(terminal) => {
            show(terminal, bytes)?;
            Ok(bytes.len())
        }
        Writing::InPlace(file) => file.write(bytes),
        Writing::Beside(temporary) => temporary.write(bytes),
    }
}

// The fault of an error.
fn fault_of(error: &io::Error) -> Fault {
    if error.kind() == ErrorKind::OutOfMemory {
        Fault::Memory
    } else {
        Fault::Refused
    }
}

// The system's reason for an error, for a hint.
fn reason_of(error: &io::Error) -> &'static str {
    match error.kind() {
        ErrorKind::NotFound => "there is no such file or folder; ",
        ErrorKind::PermissionDenied => "permission denied; ",
        ErrorKind::IsADirectory => "it is a folder; ",
        ErrorKind::NotADirectory => "a part of its path is no folder; ",
        ErrorKind::StorageFull => "no space is left on the device; ",
        ErrorKind::ReadOnlyFilesystem => "the file system is read-only; ",
        _ => "",
    }
}

// The result of a system call as a device's result.
fn answer(done: io::Result<()>) -> Result<(), Fault> {
    match done {
        Ok(()) => Ok(()),
        Err(error) => Err(fault_of(&error)),
    }
}

impl<'a> Device for SystemDevice<'a> {
    ghost log = { λ _. None };

    ghost file = { λ s. record { to_come = None; reads_left = most_reads - s.reads } };

    fn open(&mut self, name: &str, may_be_missing: bool) -> Result<bool, Fault> {
        self.reading = None;
        match self.open_input(name) {
            Ok(()) => Ok(true),
            Err(error) if may_be_missing && error.kind() == ErrorKind::NotFound => Ok(false),
            Err(error) => Err(self.fault(&error)),
        }
    }

    fn read(&mut self, _name: &str, buffer: &mut [u8]) -> Result<usize, Fault> {
        if self.reads >= MOST_READS {
            return Err(Fault::Refused);
        }
        match read_on(&mut self.reading, buffer) {
            Ok(count) => {
                if count > 0 {
                    self.reads += 1;
                    self.keep_bytes(&buffer[..count]);
                }
                Ok(count)
            }
            Err(error) => Err(self.fault(&error)),
        }
    }

    fn report(&mut self, parts: &[&[u8]]) -> Result<(), Fault> {
        if self.showing == Showing::PLAIN {
            return answer(self.diagnostics.write_parts(parts));
        }
        answer(self.tell(parts))
    }

    fn holds(&self, name: &str, bytes: &[u8]) -> bool {
        let Ok(Destination::Taken(path, found)) = destination_of(self.rt, name) else {
            return false;
        };
        let path = path.as_path().as_str();
        if matches!(holds_text(self.rt, path, &found, bytes), Ok(true)) {
            return true;
        }
        if self.showing.differences {
            self.keep_difference(name, path, &found, bytes);
        }
        false
    }

    fn create(&mut self, site: Site, name: &str) -> Result<(), Fault> {
        let done = self.make(site, name);
        self.answer(done)
    }

    fn write(&mut self, _site: Site, _name: &str, bytes: &[u8]) -> Result<usize, Fault> {
        match write_on(self.rt, &mut self.writing, bytes) {
            Ok(count) if count > 0 => Ok(count),
            Ok(_) => Err(Fault::Refused),
            Err(error) => Err(self.fault(&error)),
        }
    }

    fn close(&mut self, site: Site, _name: &str) -> Result<(), Fault> {
        let done = self.finish(site);
        self.answer(done)
    }

    fn move_there(&mut self, _name: &str) -> Result<(), Fault> {
        let done = self.move_first();
        self.answer(done)
    }

    fn clear(&mut self) {
        if let Writing::Beside(temporary) = mem::replace(&mut self.writing, Writing::Nothing) {
            remove(self.rt, &temporary);
        }
        for temporary in &self.whole {
            if let Some(temporary) = temporary {
                remove(self.rt, temporary);
            }
        }
        self.whole.clear();
        self.try_names_anew();
    }
}
