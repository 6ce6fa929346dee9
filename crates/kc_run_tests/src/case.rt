//! A run over texts that may be generated, and its results.
use crate::texts::{EMPTY, Text, text_of};
use crate::trial::{is_left, is_made, options_of, run_over};
use kc_conf::{FileMap, Options, Status};
use kc_memory_device::{MemoryDevice, Plan, SMOOTH};
use std::alloc::{AllocError, Global};
use std::test::Fail;

/// A tree, its `.config`, the options and device of the run, and its results.
#[derive(Clone, Copy)]
pub(crate) struct Case {
    /// What the case shows.
    pub name: &'static str,
    /// The arguments, between blanks.
    pub arguments: &'static str,
    /// The root file.
    pub kconfig: Text,
    /// The other files, by their names.
    pub others: &'static [(&'static str, Text)],
    /// The `.config`.
    pub settings: Text,
    /// The smallest length of its first chunk; each length from here up to `to` is tried.
    pub from: usize,
    /// One more than the greatest length.
    pub to: usize,
    /// How the device behaves otherwise.
    pub plan: Plan,
    /// The status.
    pub status: Status,
    /// The number of calls that the plan counts, if it is checked.
    pub calls: Option<u64>,
    /// The written `.config`, if one is created.
    pub config: Option<Text>,
    /// The minimal file, if one is created.
    pub minimal: Option<Text>,
    /// The diagnostics.
    pub diagnostics: Text,
    /// The number of calls that write them, if it is checked.
    pub reports: Option<u64>,
    /// Whether a run on the written `.config` writes it again.
    pub is_stable: bool,
}

/// A run with its `.config` in one chunk, without header, minimal file and dependency file. It succeeds and writes
/// nothing.
pub(crate) const PLAIN_CASE: Case = Case {
    name: "",
    arguments: "Kconfig",
    kconfig: EMPTY,
    others: &[],
    settings: EMPTY,
    from: 1_000_000,
    to: 1_000_001,
    plan: SMOOTH,
    status: Status::Done,
    calls: None,
    config: None,
    minimal: None,
    diagnostics: EMPTY,
    reports: None,
    is_stable: false,
};

// The texts of a case.
#[derive(Drop)]
struct Texts {
    settings: String,
    config: String,
    minimal: String,
    diagnostics: String,
}

fn texts_of(alloc: Global, case: &Case) -> Result<Texts, AllocError> {
    Ok(Texts {
        settings: text_of(alloc, &case.settings)?,
        config: text_of(alloc, &case.config.unwrap_or(EMPTY))?,
        minimal: text_of(alloc, &case.minimal.unwrap_or(EMPTY))?,
        diagnostics: text_of(alloc, &case.diagnostics)?,
    })
}

fn file_into(
    alloc: Global,
    name: &str,
    text: &Text,
    files: &mut FileMap,
) -> Result<(), AllocError> {
    let bytes = text_of(alloc, text)?.into_bytes();
    files.insert(Vec::from_slice(alloc, name.as_bytes())?, bytes)
}

fn files_of(alloc: Global, case: &Case) -> Result<FileMap, AllocError> {
    let mut files = FileMap::new(alloc, false);
    file_into(alloc, "Kconfig", &case.kconfig, &mut files)?;
    for (name, text) in case.others {
        file_into(alloc, name, text, &mut files)?;
    }
    Ok(files)
}

// Whether the file was created and holds this text, or was not created.
fn has_text(device: &MemoryDevice<'_>, name: &str, wanted: &Option<Text>, text: &str) -> bool {
    match wanted {
        Some(_) => is_left(device, name, text.as_bytes()),
        None => !is_made(device, name),
    }
}

// Whether the device was left as expected, and no header was created.
fn has_left(device: &MemoryDevice<'_>, case: &Case, texts: &Texts) -> bool {
    device.records().is_some()
        && has_text(device, ".config", &case.config, &texts.config)
        && has_text(device, "min.config", &case.minimal, &texts.minimal)
        && !is_made(device, "out.h")
        && device.diagnostics() == texts.diagnostics.as_bytes()
        && (case.calls.is_none() || case.calls == Some(device.calls()))
        && (case.reports.is_none() || case.reports == Some(device.reports()))
}

// Whether the run has the expected results, if the first chunk of the `.config` has this many bytes.
fn leaves(
    alloc: Global,
    case: &Case,
    texts: &Texts,
    options: &Options,
    first_read: usize,
) -> Result<bool, Fail> {
    let files = [(".config", texts.settings.as_bytes())];
    let plan = Plan {
        first_read,
        ..case.plan
    };
    let mut device = MemoryDevice::new(alloc, &files, plan);
    let status = run_over(alloc, files_of(alloc, case)?, options, &mut device);
    Ok(status == case.status && has_left(&device, case, texts))
}

// Whether a run on the written `.config` writes it again.
fn is_written_again(
    alloc: Global,
    case: &Case,
    texts: &Texts,
    options: &Options,
) -> Result<bool, Fail> {
    let config = texts.config.as_bytes();
    let files = [(".config", config)];
    let mut device = MemoryDevice::new(alloc, &files, SMOOTH);
    let status = run_over(alloc, files_of(alloc, case)?, options, &mut device);
    Ok(status == Status::Done && is_left(&device, ".config", config))
}

/// Whether the case holds.
pub(crate) fn holds(alloc: Global, case: &Case) -> Result<bool, Fail> {
    let texts = texts_of(alloc, case)?;
    let options = options_of(alloc, case.arguments)?;
    for first_read in case.from..case.to {
        if !leaves(alloc, case, &texts, &options, first_read)? {
            return Ok(false);
        }
    }
    Ok(case.from < case.to && (!case.is_stable || is_written_again(alloc, case, &texts, &options)?))
}
