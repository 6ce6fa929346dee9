//! Single faults, and the files that are left.
use crate::case::{Case, PLAIN_CASE, holds};
use crate::limits::TWO_CONFIG;
use crate::texts::{EMPTY, Text};
use crate::trees::TWO;
use kc_conf::Status;
use kc_io::{Action, Site};
use kc_memory_device::{Plan, SMOOTH};
use std::test::Fail;

// A tree of two symbols, whose `.config` comes in small chunks, and a fault.
const STRUCK: Case = Case {
    kconfig: Text {
        before: TWO,
        ..EMPTY
    },
    from: 6,
    to: 7,
    plan: SMALL,
    status: Status::Faulted,
    ..PLAIN_CASE
};

const SMALL: Plan = Plan {
    later_reads: 6,
    ..SMOOTH
};

// Room for ten bytes of a `.config`.
const NO_ROOM: Case = Case {
    name: "an output without room holds a prefix of its text",
    arguments: "--header out.h Kconfig",
    plan: Plan { room: 10, ..SMALL },
    config: Some(Text {
        before: "#\n# Automa",
        ..EMPTY
    }),
    diagnostics: Text {
        before: "error E19: cannot write .config\n",
        ..EMPTY
    },
    ..STRUCK
};

const CASES: &[Case] = &[
    NO_ROOM,
    Case {
        name: "an output without room holds a prefix of its text, in an empty tree without a header",
        arguments: "Kconfig",
        kconfig: EMPTY,
        ..NO_ROOM
    },
    Case {
        name: "a read fails after a warning",
        settings: Text {
            before: "CONFIG_Q=y\n",
            ..EMPTY
        },
        from: 100,
        to: 101,
        plan: Plan {
            counted: Some(Action::Read),
            fail_at: 2,
            ..SMOOTH
        },
        calls: Some(2),
        diagnostics: Text {
            before: ".config:1: warning K7: unknown symbol Q\nerror E18: cannot read .config\n",
            ..EMPTY
        },
        ..STRUCK
    },
    Case {
        name: "a header that cannot be created leaves the .config whole",
        arguments: "--header inc.h Kconfig",
        plan: Plan {
            counted: Some(Action::Create(Site::Place)),
            fail_at: 2,
            ..SMALL
        },
        config: Some(TWO_CONFIG),
        diagnostics: Text {
            before: "error E19: cannot write inc.h\n",
            ..EMPTY
        },
        ..STRUCK
    },
    Case {
        name: "nothing is reported if the diagnostics fail too",
        arguments: "--config none --must-exist Kconfig",
        plan: Plan {
            counted: Some(Action::Report),
            fail_at: 1,
            ..SMALL
        },
        reports: Some(1),
        ..STRUCK
    },
];

#[test]
fn single_faults_leave_what_they_should(rt: HostRuntime) -> Result<(), Fail> {
    for case in CASES {
        assert!(rt; holds(rt.alloc(), case)?, "{}", case.name);
    }
    Ok(())
}
