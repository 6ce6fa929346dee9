//! Usage errors.

use crate::case::{Case, REFUSED};
use crate::runs::{holds, run_case};
use kc_conf::Status;
use kc_disk::{Arguments, kconf};
use kc_memory_device::MemoryDevice;
use std::io::{self, ErrorKind};
use std::test::Fail;

// Arguments that are refused, without a tree.
const BAD: &[Case] = &[
    Case {
        name: "a text that is no prefix",
        arguments: "--prefix 9X none/Kconfig",
        diagnostics: b"error: invalid value '9X' for '--prefix <TEXT>': at most 64 letters, digits and _, of which the first is no digit\n\nFor more information, try '--help'.\n",
        ..USAGE
    },
    Case {
        name: "two options that exclude each other",
        arguments: "--check --replace none/Kconfig none.cfg",
        diagnostics: b"error: the argument '--check' cannot be used with '--replace'\n\nFor more information, try '--help'.\n",
        ..USAGE
    },
];

const USAGE: Case = Case {
    tree: &[],
    status: Status::Usage,
    ..REFUSED
};

// Whether the run has the expected diagnostics, and neither reads nor creates a file.
fn asks_nothing(rt: &HostRuntime, case: &Case) -> Result<bool, Fail> {
    let mut device = MemoryDevice::new(rt.alloc(), case.files, case.plan);
    let ended = run_case(rt, case, &mut device)?;
    Ok(
        ended.status == case.status
            && ended.asked == 0
            && matches!(device.records(), Some([]))
            && holds(rt.alloc(), case, &device)?,
    )
}

#[test]
fn a_bad_command_line_reads_nothing(rt: HostRuntime) -> Result<(), Fail> {
    for case in BAD {
        assert!(rt; asks_nothing(&rt, case)?, "{}", case.name);
    }
    Ok(())
}

// The status of a run whose arguments cannot be read, for this kind of error.
fn status_of_unread(rt: &HostRuntime, kind: ErrorKind) -> Status {
    let arguments = Arguments::of(rt.alloc(), Err(io::Error::from(kind)));
    kconf(rt, &arguments).status()
}

#[test]
fn arguments_that_are_no_text_are_a_bad_command_line(rt: HostRuntime) {
    assert!(rt; status_of_unread(&rt, ErrorKind::InvalidData) == Status::Usage);
    assert!(rt; status_of_unread(&rt, ErrorKind::OutOfMemory) == Status::Faulted);
}
