//! Each call of a device fails in turn: each call that opens, reads, creates, writes, closes or moves a file, or writes
//! diagnostics.
use crate::trees::{TURNS, Turn};
use crate::trial::{ALL, is_left, one_file, options_of, run_over};
use kc_conf::{Options, Status};
use kc_io::{Action, Fault};
use kc_memory_device::{MemoryDevice, Plan, Record, SMOOTH};
use std::alloc::{AllocError, Global};
use std::test::Fail;

/// Runs over the tree with these options.
pub(crate) fn run_turn(
    alloc: Global,
    turn: &Turn,
    options: &Options,
    device: &mut MemoryDevice<'_>,
) -> Result<Status, AllocError> {
    let tree = one_file(alloc, turn.kconfig.as_bytes())?;
    Ok(run_over(alloc, tree, options, device))
}

// The dependency file for each tree, which is one file.
const DEPFILE: &[u8] = b".config: \\\n ./Kconfig\n\n./Kconfig:\n";

/// Whether the files were created and hold the texts of the tree.
pub(crate) fn are_files(device: &MemoryDevice<'_>, turn: &Turn) -> bool {
    is_left(device, ".config", turn.config)
        && is_left(device, "out.h", turn.header)
        && is_left(device, "min.config", turn.minimal)
        && is_left(device, "out.d", DEPFILE)
}

/// Whether the files and the diagnostics hold the texts of the tree.
pub(crate) fn are_texts(device: &MemoryDevice<'_>, turn: &Turn) -> bool {
    are_files(device, turn) && device.diagnostics() == turn.diagnostics
}

fn is_same(record: &Record, other: &Record) -> bool {
    record.action == other.action
        && record.name.as_str() == other.name.as_str()
        && record.bytes.as_slice() == other.bytes.as_slice()
        && record.fault == other.fault
}

// The start of the error line of a call that failed, and whether the name of its file follows.
fn line_of(action: Action, fault: Fault) -> (&'static [u8], bool) {
    match (action, fault) {
        (Action::Report, _) => (b"", false),
        (_, Fault::Memory) => (b"error E20: out of memory\n", false),
        (Action::Open | Action::Read, _) => (b"error E18: cannot read ", true),
        _ => (b"error E19: cannot write ", true),
    }
}

// The diagnostics before the error line of this call; None if they do not end with it.
fn said_before<'d>(said: &'d [u8], failed: &Record, fault: Fault) -> Option<&'d [u8]> {
    match line_of(failed.action, fault) {
        (line, false) => said.strip_suffix(line),
        (line, true) => said
            .strip_suffix(b"\n")?
            .strip_suffix(failed.name.as_bytes())?
            .strip_suffix(line),
    }
}

// Whether this call comes after all diagnostics.
fn comes_last(action: Action) -> bool {
    matches!(
        action,
        Action::Create(_) | Action::Write(_) | Action::Close(_) | Action::Move
    )
}

// Whether this call is the next one of the complete run; diagnostics have no record there.
fn is_next(failed: &Record, whole: &[Record]) -> bool {
    match whole.first() {
        Some(next) => failed.action == next.action && failed.name.as_str() == next.name.as_str(),
        None => false,
    }
}

// Whether nothing comes after the call that failed, or only the removal of temporary files.
fn is_end(failed: &Record, behind: &[Record], replaces: bool) -> bool {
    match behind {
        [] => !(replaces && comes_last(failed.action)),
        [last] => replaces && comes_last(failed.action) && last.action == Action::Clear,
        _ => false,
    }
}

// Whether the run is the complete one up to a call that failed with this fault, the error line is that of the call, and
// nothing was done afterwards.
fn is_struck(
    whole: &MemoryDevice<'_>,
    struck: &MemoryDevice<'_>,
    fault: Fault,
    replaces: bool,
) -> bool {
    let (Some(all), Some(made)) = (whole.records(), struck.records()) else {
        return false;
    };
    let count = all
        .iter()
        .zip(made)
        .take_while(|(record, other)| is_same(record, other))
        .count();
    let [failed, behind @ ..] = &made[count.min(made.len())..] else {
        return false;
    };
    let Some(said) = said_before(struck.diagnostics(), failed, fault) else {
        return false;
    };
    failed.fault == Some(fault)
        && (failed.action == Action::Report || is_next(failed, &all[count.min(all.len())..]))
        && whole.diagnostics().starts_with(said)
        && (!comes_last(failed.action) || said == whole.diagnostics())
        && is_end(failed, behind, replaces)
}

// A way to deliver the texts.
struct Way {
    arguments: &'static str,
    replaces: bool,
    status: Status,
    // The runs over all trees make more calls than this number.
    least: u64,
}

const WAYS: &[Way] = &[
    Way {
        arguments: ALL,
        replaces: false,
        status: Status::Done,
        least: 100,
    },
    Way {
        arguments: "--replace --header out.h --savedefconfig min.config --depfile out.d Kconfig",
        replaces: true,
        status: Status::Done,
        least: 100,
    },
    Way {
        arguments: "--check --header out.h --savedefconfig min.config --depfile out.d Kconfig",
        replaces: false,
        status: Status::Refused,
        least: 40,
    },
];

// Small chunks, and a call that fails.
fn plan_of(fail_at: u64, fault: Fault) -> Plan {
    Plan {
        first_read: 6,
        later_reads: 6,
        piece: 7,
        fail_at,
        fault,
        ..SMOOTH
    }
}

// The number of calls of the run; None if it has wrong results when one of them fails with this fault.
fn calls_fail(
    alloc: Global,
    turn: &Turn,
    way: &Way,
    options: &Options,
    fault: Fault,
) -> Result<Option<u64>, AllocError> {
    let files = [(".config", turn.settings)];
    let mut whole = MemoryDevice::new(alloc, &files, plan_of(0, fault));
    if run_turn(alloc, turn, options, &mut whole)? != way.status {
        return Ok(None);
    }
    for before in 0..whole.calls() {
        let plan = plan_of(before.saturating_add(1), fault);
        let mut struck = MemoryDevice::new(alloc, &files, plan);
        let status = run_turn(alloc, turn, options, &mut struck)?;
        if status != Status::Faulted || !is_struck(&whole, &struck, fault, way.replaces) {
            return Ok(None);
        }
    }
    Ok(Some(whole.calls()))
}

// The number of calls of the runs over all trees; None if one of them has wrong results.
fn calls_of_all(alloc: Global, way: &Way, fault: Fault) -> Result<Option<u64>, Fail> {
    let options = options_of(alloc, way.arguments)?;
    let mut calls = 0_u64;
    for turn in TURNS {
        match calls_fail(alloc, turn, way, &options, fault)? {
            Some(made) => calls = calls.saturating_add(made),
            None => return Ok(None),
        }
    }
    Ok(Some(calls))
}

#[test]
fn each_call_fails_in_turn(rt: HostRuntime) -> Result<(), Fail> {
    for way in WAYS {
        for fault in [Fault::Refused, Fault::Memory] {
            let calls = calls_of_all(rt.alloc(), way, fault)?;
            assert!(rt; calls > Some(way.least), "{}: {calls:?}", way.arguments);
        }
    }
    Ok(())
}
