//! Runs that replace files at the end, or compare them.

use crate::case::{CONFIG, Case, DONE, HEADER, SEVEN};
use crate::runs::gives;
use kc_conf::Status;
use kc_io::{Action, Site};
use kc_memory_device::Plan;
use std::test::Fail;

// An empty tree, whose `.config` and header are replaced.
const NEW: Case = Case {
    name: "both are new",
    arguments: "--replace --header h Kconfig",
    log: "move .config\nmove h\n",
    left: BOTH,
    ..DONE
};

const BOTH: &[(&str, Option<&[u8]>)] = &[(".config", Some(CONFIG)), ("h", Some(HEADER))];

// The same, but the old `.config` is different and the new one cannot be created.
const BROKEN: Case = Case {
    name: "the .config cannot be made",
    files: &[(".config", b"# old\n")],
    log: "clear\n",
    diagnostics: b"error E19: cannot write .config\n",
    status: Status::Faulted,
    left: &[(".config", Some(b"# old\n")), ("h", None)],
    ..NEW
};

// The same, but the header cannot be created.
const NO_HEADER: Case = Case {
    name: "the header cannot be made",
    diagnostics: b"error E19: cannot write h\n",
    ..BROKEN
};

const CASES: &[Case] = &[
    NEW,
    Case {
        name: "the .config was the same",
        files: &[(".config", CONFIG), ("h", b"")],
        log: "move h\n",
        ..NEW
    },
    Case {
        name: "both were the same",
        files: &[(".config", CONFIG), ("h", HEADER)],
        log: "",
        ..NEW
    },
    Case {
        name: "the dependency file takes its place last",
        arguments: "--replace --header h --depfile d Kconfig",
        log: "move .config\nmove h\nmove d\n",
        left: &[
            (".config", Some(CONFIG)),
            ("h", Some(HEADER)),
            ("d", Some(b".config: \\\n ./Kconfig\n\n./Kconfig:\n")),
        ],
        ..NEW
    },
    Case {
        name: "of two outputs of one name the later stays",
        arguments: "--replace --header h --savedefconfig h Kconfig",
        log: "move .config\nmove h\nmove h\n",
        left: &[(".config", Some(CONFIG)), ("h", Some(b""))],
        ..NEW
    },
    Case {
        name: "an explanation stands in the place of all files",
        arguments: "--replace --header h --explain A Kconfig",
        tree: &[("./Kconfig", b"config A\n\tbool \"a\"\n")],
        files: &[(".config", b"CONFIG_A=y\n")],
        log: "make /dev/stdout\nclose /dev/stdout\n",
        left: &[
            (".config", Some(b"CONFIG_A=y\n")),
            ("h", None),
            (
                "/dev/stdout",
                Some(
                    b"A=y (bool): user value\n  .config:1: user value y\n  Kconfig:1: dependencies: y\n  Kconfig:2: prompt: y\nto see what to set: --how A=VALUE\n",
                ),
            ),
        ],
        ..NEW
    },
    Case {
        name: "a refused tree",
        tree: &[("./Kconfig", b"source \"a\"\n")],
        log: "",
        diagnostics: b"Kconfig:1: error E1: no file a\n",
        status: Status::Refused,
        ..BROKEN
    },
    Case {
        name: "an input file that cannot be read",
        arguments: "--replace --header h --must-exist --config none --out .config Kconfig",
        log: "",
        diagnostics: b"error E18: cannot read none\n",
        ..BROKEN
    },
];

#[test]
fn files_take_their_places_at_the_end(rt: HostRuntime) -> Result<(), Fail> {
    for case in CASES {
        assert!(rt; gives(&rt, case)?, "{}", case.name);
    }
    Ok(())
}

// Calls that fail, each with its number among the calls of its kind: they create the `.config` and the header, and then
// move both.
const CALLS: &[(Action, u64, Case)] = &[
    (Action::Create(Site::Beside), 1, BROKEN),
    (Action::Write(Site::Beside), 1, BROKEN),
    (Action::Close(Site::Beside), 1, BROKEN),
    (Action::Create(Site::Beside), 2, NO_HEADER),
    (Action::Write(Site::Beside), 2, NO_HEADER),
    (Action::Close(Site::Beside), 2, NO_HEADER),
    (Action::Move, 1, BROKEN),
    (Action::Move, 2, NOT_MOVED),
];

const NOT_MOVED: Case = Case {
    name: "the header cannot be moved",
    log: "move .config\nclear\n",
    left: &[(".config", Some(CONFIG)), ("h", None)],
    ..NO_HEADER
};

#[test]
fn each_call_of_a_replacement_fails_in_turn(rt: HostRuntime) -> Result<(), Fail> {
    for (action, fail_at, case) in CALLS {
        let plan = Plan {
            counted: Some(*action),
            fail_at: *fail_at,
            ..SEVEN
        };
        assert!(rt;
            gives(&rt, &Case { plan, ..*case })?,
            "{}: {fail_at}",
            case.name
        );
    }
    Ok(())
}

// The same with --check, but neither file exists.
const STALE: Case = Case {
    name: "--check: neither file is there",
    arguments: "--check --header h Kconfig",
    log: "",
    diagnostics: b"error E22: .config is not up to date\nerror E22: h is not up to date\n",
    status: Status::Refused,
    left: &[(".config", None), ("h", None)],
    ..NEW
};

const COMPARED: &[Case] = &[
    STALE,
    Case {
        name: "--check: both are up to date",
        files: &[(".config", CONFIG), ("h", HEADER)],
        diagnostics: b"",
        status: Status::Done,
        left: BOTH,
        ..STALE
    },
    Case {
        name: "--check: the header is empty",
        files: &[(".config", CONFIG), ("h", b"")],
        diagnostics: b"error E22: h is not up to date\n",
        left: &[(".config", Some(CONFIG)), ("h", Some(b""))],
        ..STALE
    },
    Case {
        name: "--check: a refused tree",
        tree: &[("./Kconfig", b"source \"a\"\n")],
        diagnostics: b"Kconfig:1: error E1: no file a\n",
        ..STALE
    },
    Case {
        name: "--check: an input file that cannot be read",
        arguments: "--check --must-exist Kconfig",
        diagnostics: b"error E18: cannot read .config\n",
        status: Status::Faulted,
        ..STALE
    },
    Case {
        name: "--check: standard error takes nothing",
        plan: Plan {
            counted: Some(Action::Report),
            fail_at: 1,
            ..SEVEN
        },
        diagnostics: b"",
        status: Status::Faulted,
        ..STALE
    },
];

#[test]
fn a_check_changes_no_place(rt: HostRuntime) -> Result<(), Fail> {
    for case in COMPARED {
        assert!(rt; gives(&rt, case)?, "{}", case.name);
    }
    Ok(())
}
