//! Diagnostics that are held back until the tree is known, and the files that were read.

use kc_display::Showing;
use kc_hints::{Facts, Input, hinted, waits};
use std::alloc::{AllocError, Global};
use std::mem;

/// The maximum number of bytes of a file that is kept. A longer file is not kept.
const MOST_KEPT: usize = 67_108_864;

/// Diagnostics with the system's reason for the last failure, and the difference of the last file that was compared.
#[derive(Drop)]
pub(crate) struct Report {
    pub text: Vec<u8>,
    pub reason: &'static str,
    pub difference: Option<Vec<u8>>,
}

impl Report {
    // The difference, or an empty one.
    fn difference(&self) -> &[u8] {
        match &self.difference {
            Some(difference) => difference,
            None => b"",
        }
    }

    /// Returns the report unchanged, in parts.
    pub(crate) fn parts(&self) -> [&[u8]; 2] {
        [&self.text, self.difference()]
    }

    // The report in its printed form, with these facts.
    fn shown_with(
        &self,
        alloc: Global,
        showing: Showing,
        facts: &Facts<'_>,
    ) -> Result<Vec<u8>, AllocError> {
        let mut shown = hinted(alloc, showing, self.reason, facts, &self.text)?;
        shown.extend_from_slice(self.difference())?;
        Ok(shown)
    }

    /// Returns the report in its printed form, with these facts, or without them if there is not enough memory for
    /// that. Fails only if there is not enough memory.
    pub(crate) fn shown(
        &self,
        alloc: Global,
        showing: Showing,
        facts: &Facts<'_>,
    ) -> Result<Vec<u8>, AllocError> {
        match self.shown_with(alloc, showing, facts) {
            Ok(shown) => Ok(shown),
            Err(_) => self.shown_with(alloc, showing, &Facts::none()),
        }
    }
}

/// The reports that are held back, in order. And the files that were read so far, each from its start.
#[derive(Drop)]
pub(crate) struct Held {
    reports: Vec<Report>,
    inputs: Vec<Input>,
    // Whether the next bytes belong to the last file.
    keeps: bool,
}

impl Held {
    /// Returns an empty value.
    pub(crate) fn new(alloc: Global) -> Held {
        Held {
            reports: Vec::new(alloc),
            inputs: Vec::new(alloc),
            keeps: false,
        }
    }

    /// The reports that are held back.
    pub(crate) fn reports(&self) -> &[Report] {
        &self.reports
    }

    /// The files that were read.
    pub(crate) fn inputs(&self) -> &[Input] {
        &self.inputs
    }

    /// Removes all reports and returns them.
    pub(crate) fn take_reports(&mut self, alloc: Global) -> Vec<Report> {
        mem::replace(&mut self.reports, Vec::new(alloc))
    }

    // Whether a report must wait: one before it waits, or one of its hints may start with a fact.
    fn has_to_wait(&self, alloc: Global, report: &Report) -> bool {
        !self.reports.is_empty() || matches!(waits(alloc, &report.text), Ok(true))
    }

    /// Holds a report back. Returns it if it need not wait, or if there is not enough memory.
    pub(crate) fn take(&mut self, alloc: Global, report: Report) -> Option<Report> {
        if !self.has_to_wait(alloc, &report) || self.reports.reserve(1).is_err() {
            return Some(report);
        }
        let _ = self.reports.push(report);
        None
    }

    /// Adds a file that was read.
    ///
    /// # Errors
    ///
    /// Fails if there is not enough memory.
    pub(crate) fn add_input(
        &mut self,
        alloc: Global,
        name: &[u8],
        bytes: &[u8],
    ) -> Result<(), AllocError> {
        let name = Vec::from_slice(alloc, name)?;
        let bytes = Vec::from_slice(alloc, bytes)?;
        self.inputs.push(Input { name, bytes })?;
        Ok(())
    }

    /// Starts to keep the file of this name, if there is enough memory.
    pub(crate) fn begin_input(&mut self, alloc: Global, name: &str) {
        self.keeps = self.add_input(alloc, name.as_bytes(), b"").is_ok();
    }

    /// Keeps bytes of the last file. If there is not enough memory, or the file is too long, it is dropped.
    pub(crate) fn add_bytes(&mut self, bytes: &[u8]) {
        if self.keeps && !self.is_added(bytes) {
            let _ = self.inputs.pop();
            self.keeps = false;
        }
    }

    // Adds bytes to the last file. Returns whether that succeeded.
    fn is_added(&mut self, bytes: &[u8]) -> bool {
        match self.inputs.last_mut() {
            Some(input) => {
                bytes.len() <= MOST_KEPT.saturating_sub(input.bytes.len())
                    && input.bytes.extend_from_slice(bytes).is_ok()
            }
            None => false,
        }
    }
}
