//! The device itself.
ghost use Rattle.std.specs.Prelude.{◌≡◌, ℕ, List, [], ◌++◌, Option, Some, true, false, is_some, map, option_map, Result, IfOk, IfSome};
ghost use Rattle.std.specs.List.{flat_map};

use crate::opened::Opened;
use crate::plan::{Plan, Turns};
use crate::record::{Record, recorded};
use crate::replay::{held_after, is_held_after};
use kc_io::{Action, Device, Fault, Site};
use std::alloc::{AllocError, Global};

/// Files and diagnostics in memory (our own).
///
/// It records what its files hold at first, and then every call. If there is not enough memory for a record, it stops
/// recording.
#[derive(Drop)]
pub struct MemoryDevice<'a> {
    alloc: Global,
    first: &'a [(&'a str, &'a [u8])],
    records: Option<Vec<Record>>,
    said: Vec<u8>,
    reports: u64,
    opened: Opened,
    turns: Turns,
}

// Appends the parts to what was reported.
fn say(said: &mut Vec<u8>, parts: &[&[u8]]) -> Result<(), AllocError>
    ensures { IfOk result (λ _. said.new.items ≡ said.old.items ++ flat_map (λ part. part.now) parts.now) }
{
    for part in parts {
        said.extend_from_slice(part)?;
    }
    Ok(())
}

impl<'a> MemoryDevice<'a> {
    ghost use Rattle.kc_io.specs.Log.{Leads, Tells, held, IsFound, IsOpened};
    ghost use Rattle.kc_memory_device.specs.Opened.{open_file};
    ghost use Rattle.kc_memory_device.specs.Recorded.{asked, events_of, first_held, outcome};
    ghost use Rattle.kc_memory_device.specs.Told.{log_of};

    /// Returns a device with these files, by name, before any call. Of two files of the same name it has the first.
    pub fn new(alloc: Global, files: &'a [(&'a str, &'a [u8])], plan: Plan) -> MemoryDevice<'a>
        ensures { log_of result ≡ Some (record { files = first_held files.now; events = []; said = [] }) }
    {
        MemoryDevice {
            alloc,
            first: files,
            records: Some(Vec::new(alloc)),
            said: Vec::new(alloc),
            reports: 0,
            opened: Opened::nothing(alloc),
            turns: Turns::new(plan),
        }
    }

    /// Returns what the file of this name holds now, if it exists. `AllocError` if there is not enough memory.
    pub fn held(&self, name: &str) -> Result<Option<Vec<u8>>, AllocError>
        ensures { IfOk result (λ bytes. Tells (log_of self.now) (λ journal. option_map (λ b. b.items) bytes ≡ held journal name.now)) }
    {
        match &self.records {
            Some(records) => held_after(self.alloc, self.first, records, name),
            None => Ok(None),
        }
    }

    /// Returns the diagnostics that were reported.
    pub fn diagnostics(&self) -> &[u8]
        ensures { Tells (log_of self.now) (λ journal. result.now ≡ journal.said) }
    {
        self.said.as_slice()
    }

    /// Returns the calls, in order, without those that wrote diagnostics; None if there was not enough memory to record
    /// them.
    pub fn records(&self) -> Option<&[Record]>
        ensures { option_map (λ records. events_of records.now) result ≡ option_map (λ journal. journal.events) (log_of self.now) }
    {
        match &self.records {
            Some(records) => Some(records.as_slice()),
            None => None,
        }
    }

    /// Returns how often diagnostics were reported.
    pub fn reports(&self) -> u64 {
        self.reports
    }

    /// Returns the number of calls that the plan counts.
    pub fn calls(&self) -> u64 {
        self.turns.calls
    }

    // Records one more call, with these bytes.
    fn record(&mut self, action: Action, name: &str, bytes: &[u8], fault: Option<Fault>)
        ensures log { Leads (asked action name.now bytes.now fault) [] (log_of self.old) (log_of self.new) }
        ensures open { self.new.opened ≡ self.old.opened }
    {
        let records = self.records.take();
        self.records = recorded(self.alloc, records, action, name, bytes, fault);
    }

    // Makes one more call, which fails if the plan says so.
    fn ask(&mut self, action: Action, name: &str, bytes: &[u8]) -> Result<(), Fault>
        ensures { Leads (outcome result action name.now bytes.now) [] (log_of self.old) (log_of self.new) }
    {
        match self.turns.next(action) {
            Some(fault) => {
                self.record(action, name, bytes, Some(fault));
                Err(fault)
            }
            None => {
                self.record(action, name, bytes, None);
                Ok(())
            }
        }
    }

    // The file of this name, if it exists. `Fault` if it does not and must exist.
    fn find(&self, name: &str, may_be_missing: bool) -> Result<Option<Opened>, Fault>
        ensures found { IfOk result (λ file. IsFound (log_of self.now) name.now may_be_missing (is_some file)) }
        ensures file { IfOk result (λ file. IfSome file (λ opened. IsOpened (log_of self.now) name.now (open_file opened))) }
    {
        match self.held(name) {
            Ok(Some(bytes)) => Ok(Some(Opened {
                bytes,
                at: 0,
                is_told: self.records.is_some(),
            })),
            Ok(None) => if may_be_missing {
                Ok(None)
            } else {
                Err(Fault::Refused)
            },
            Err(AllocError) => Err(Fault::Memory),
        }
    }

    // The same, unless the call fails by the plan.
    fn find_in_turn(&mut self, name: &str, may_be_missing: bool) -> Result<Option<Opened>, Fault>
        ensures stays { log_of self.new ≡ log_of self.old }
        ensures found { IfOk result (λ file. IsFound (log_of self.old) name.now may_be_missing (is_some file)) }
        ensures file { IfOk result (λ file. IfSome file (λ opened. IsOpened (log_of self.old) name.now (open_file opened))) }
    {
        match self.turns.next(Action::Open) {
            Some(fault) => Err(fault),
            None => self.find(name, may_be_missing),
        }
    }
}

impl<'a> Device for MemoryDevice<'a> {
    ghost use Rattle.kc_memory_device.specs.Opened.{open_file};
    ghost use Rattle.kc_memory_device.specs.Told.{log_of};

    ghost log = { log_of };

    ghost file = { λ device. open_file device.opened };

    fn open(&mut self, name: &str, may_be_missing: bool) -> Result<bool, Fault> {
        match self.find_in_turn(name, may_be_missing) {
            Ok(Some(opened)) => {
                self.record(Action::Open, name, b"", None);
                self.opened = opened;
                Ok(true)
            }
            Ok(None) => {
                self.record(Action::Miss, name, b"", None);
                Ok(false)
            }
            Err(fault) => {
                self.record(Action::Open, name, b"", Some(fault));
                Err(fault)
            }
        }
    }

    fn read(&mut self, name: &str, buffer: &mut [u8]) -> Result<usize, Fault> {
        let fault = self.turns.next(Action::Read);
        let mut count = 0;
        if fault.is_none() {
            let most = self.turns.most(self.opened.at);
            count = self.opened.read(buffer, most);
        }
        let records = self.records.take();
        self.records = recorded(
            self.alloc,
            records,
            Action::Read,
            name,
            &buffer[..count],
            fault,
        );
        match fault {
            Some(fault) => Err(fault),
            None => Ok(count),
        }
    }

    fn report(&mut self, parts: &[&[u8]]) -> Result<(), Fault> {
        self.reports = self.reports.saturating_add(1);
        if let Some(fault) = self.turns.next(Action::Report) {
            self.record(Action::Report, "", b"", Some(fault));
            return Err(fault);
        }
        match say(&mut self.said, parts) {
            Ok(()) => Ok(()),
            Err(AllocError) => {
                self.records = None;
                Err(Fault::Memory)
            }
        }
    }

    fn holds(&self, name: &str, bytes: &[u8]) -> bool {
        match &self.records {
            Some(records) => is_held_after(self.first, records, name, bytes),
            None => false,
        }
    }

    fn create(&mut self, site: Site, name: &str) -> Result<(), Fault> {
        self.ask(Action::Create(site), name, b"")
    }

    fn write(&mut self, site: Site, name: &str, bytes: &[u8]) -> Result<usize, Fault> {
        let count = self.turns.taken(bytes.len());
        if count == 0 {
            self.record(Action::Write(site), name, b"", Some(Fault::Refused));
            return Err(Fault::Refused);
        }
        match self.ask(Action::Write(site), name, &bytes[..count]) {
            Ok(()) => Ok(count),
            Err(fault) => Err(fault),
        }
    }

    fn close(&mut self, site: Site, name: &str) -> Result<(), Fault> {
        self.ask(Action::Close(site), name, b"")
    }

    fn move_there(&mut self, name: &str) -> Result<(), Fault> {
        self.ask(Action::Move, name, b"")
    }

    fn clear(&mut self) {
        self.record(Action::Clear, "", b"", None);
    }
}
