//! Refusals, and devices that fail before a file is created.
use crate::case::{CONFIG, Case, DONE, FAULTED, REFUSED, SEVEN};
use crate::runs::{Ended, gives, gives_over, run_case, run_words, words_of};
use kc_conf::Status;
use kc_io::Action;
use kc_memory_device::{MemoryDevice, Plan, Record};
use std::test::Fail;

// Runs that are refused.
const REFUSALS: &[Case] = &[
    Case {
        name: "a tree without its root file",
        tree: &[],
        diagnostics: b"Kconfig:0: error E1: no file Kconfig\n",
        ..REFUSED
    },
    Case {
        name: "two warnings that are refused",
        arguments: "--strict Kconfig x.cfg",
        files: &[
            (".config", b"CONFIG_Q=y\n"),
            ("x.cfg", b"\nCONFIG_OLD_DRIVER=y\n"),
        ],
        diagnostics: b".config:1: warning K7: unknown symbol Q\nx.cfg:2: warning K7: unknown symbol OLD_DRIVER\nerror E21: warnings are refused\n",
        ..REFUSED
    },
    Case {
        name: "a name that no symbol has",
        arguments: "--explain A --strict Kconfig",
        files: &[(".config", b"CONFIG_Q=y\n")],
        diagnostics: b"error E24: no symbol has the name A\n",
        ..REFUSED
    },
    Case {
        name: "a value that no input gives",
        arguments: "--how A=y Kconfig",
        tree: &[("./Kconfig", b"config A\n\tbool \"a\"\n\tdepends on NONE\n")],
        diagnostics: b"error E25: no input gives CONFIG_A=y\n  Kconfig:3: depends on NONE: n\n  NONE: not defined\n",
        ..REFUSED
    },
];

// Devices that fail.
const FAULTS: &[Case] = &[
    Case {
        name: "E18 of a file of the tree",
        arguments: "--root dir Kconfig",
        tree: &[
            ("dir/Kconfig", b"source \"a\"\nsource \"b\"\n"),
            ("dir/a", b""),
            ("dir/b", b""),
        ],
        failing: "dir/b",
        diagnostics: b"error E18: cannot read b\n",
        ..FAULTED
    },
    Case {
        name: "E18 of a .config that has to exist",
        arguments: "--must-exist --config old Kconfig",
        diagnostics: b"error E18: cannot read old\n",
        ..FAULTED
    },
    Case {
        name: "E18 of a .config that cannot be opened",
        files: &[(".config", b"")],
        plan: Plan {
            counted: Some(Action::Open),
            fail_at: 1,
            ..SEVEN
        },
        diagnostics: b"error E18: cannot read .config\n",
        ..FAULTED
    },
    Case {
        name: "E18 of a .config after its warning",
        tree: &[("./Kconfig", b"config A\n\tbool \"a\"\n")],
        files: &[(".config", b"CONFIG_Q=y\n")],
        plan: Plan {
            counted: Some(Action::Read),
            fail_at: 3,
            ..SEVEN
        },
        diagnostics: b".config:1: warning K7: unknown symbol Q\nerror E18: cannot read .config\n",
        ..FAULTED
    },
    Case {
        name: "E18 of a fragment that is not there",
        arguments: "Kconfig x.cfg site.config",
        files: &[(".config", b""), ("x.cfg", b"")],
        diagnostics: b"error E18: cannot read site.config\n",
        ..FAULTED
    },
    Case {
        name: "E18 of the first of two fragments that fail",
        arguments: "Kconfig x.cfg y.cfg",
        files: &[(".config", b"")],
        diagnostics: b"error E18: cannot read x.cfg\n",
        ..FAULTED
    },
    Case {
        name: "E19 of the first of two files for which there is no room",
        arguments: "--header h --savedefconfig m --depfile d Kconfig",
        plan: Plan {
            room: CONFIG.len() + 3,
            ..SEVEN
        },
        log: "make .config\nclose .config\nmake h\n",
        diagnostics: b"error E19: cannot write h\n",
        left: &[
            (".config", Some(CONFIG)),
            ("h", Some(b"/*\n")),
            ("m", None),
            ("d", None),
        ],
        ..FAULTED
    },
    Case {
        name: "E19 of an answer for which there is no room",
        arguments: "--how A=y Kconfig",
        tree: &[("./Kconfig", b"config A\n\tbool \"a\"\n")],
        plan: Plan { room: 5, ..SEVEN },
        log: "make /dev/stdout\n",
        diagnostics: b"error E19: cannot write /dev/stdout\n",
        left: &[("/dev/stdout", Some(b"CONFI")), (".config", None)],
        ..FAULTED
    },
    Case {
        name: "E18 of a list of configurations",
        arguments: "--how A=y --each-from list Kconfig",
        tree: &[("./Kconfig", b"config A\n\tbool \"a\"\n"), ("list", b"a\n")],
        failing: "list",
        diagnostics: b"error E18: cannot read list\n",
        ..FAULTED
    },
    Case {
        name: "E18 of one of two configurations, with the answer for the other one",
        arguments: "--how A=n --each Kconfig a b",
        tree: &[("./Kconfig", b"config A\n\tbool \"a\"\n")],
        files: &[("b", b"")],
        log: "make /dev/stdout\nclose /dev/stdout\n",
        diagnostics: b"a: error E18: cannot read a\n",
        left: &[("/dev/stdout", Some(b"# b:\n# CONFIG_A=n already\n"))],
        ..FAULTED
    },
];

// Runs in which nothing fails.
const FAULTLESS: &[Case] = &[
    Case {
        name: "no .config",
        ..DONE
    },
    Case {
        name: "a .config that has to exist and does",
        arguments: "--must-exist Kconfig",
        files: &[(".config", b"")],
        ..DONE
    },
    Case {
        name: "the dependency file names files in the order of their first opening, each once, and then fragments",
        arguments: "--depfile rule.d Kconfig x.cfg ./b x.cfg",
        tree: &[
            (
                "./Kconfig",
                b"source \"b\"\nsource \"/a b\"\nsource \"b\"\n",
            ),
            ("/a b", b"source \"c#\"\n"),
            ("./b", b"config B\n\tbool\n\thelp\n\t  source \"d\"\n"),
            ("./c#", b""),
        ],
        files: &[("x.cfg", b""), ("./b", b"")],
        log: "make .config\nclose .config\nmake rule.d\nclose rule.d\n",
        left: &[
            (".config", Some(CONFIG)),
            (
                "rule.d",
                Some(
                    b".config: \\\n ./Kconfig \\\n ./b \\\n /a\\ b \\\n ./c\\# \\\n x.cfg\n\n./Kconfig:\n\n./b:\n\n/a\\ b:\n\n./c\\#:\n\nx.cfg:\n",
                ),
            ),
        ],
        ..DONE
    },
    Case {
        name: "the dependency file alone, of two files, a .config of another name and a fragment",
        arguments: "--root dir --out new --depfile rule.d Kconfig x.cfg",
        tree: &[("dir/Kconfig", b"source \"a\"\n"), ("dir/a", b"")],
        files: &[("x.cfg", b"")],
        log: "make new\nclose new\nmake rule.d\nclose rule.d\n",
        left: &[
            ("new", Some(CONFIG)),
            (
                "rule.d",
                Some(
                    b"new: \\\n dir/Kconfig \\\n dir/a \\\n .config \\\n x.cfg\n\ndir/Kconfig:\n\ndir/a:\n\n.config:\n\nx.cfg:\n",
                ),
            ),
        ],
        ..DONE
    },
];

#[test]
fn a_refused_run_makes_nothing(rt: HostRuntime) -> Result<(), Fail> {
    for case in REFUSALS {
        assert!(rt; gives(&rt, case)?, "{}", case.name);
    }
    Ok(())
}

#[test]
fn a_fault_names_its_file(rt: HostRuntime) -> Result<(), Fail> {
    for case in FAULTS {
        assert!(rt; gives(&rt, case)?, "{}", case.name);
    }
    Ok(())
}

#[test]
fn a_file_that_may_be_missing_is_no_fault(rt: HostRuntime) -> Result<(), Fail> {
    for case in FAULTLESS {
        assert!(rt; gives(&rt, case)?, "{}", case.name);
    }
    Ok(())
}

const TOO_LONG: &Case = &Case {
    diagnostics: b".config:1: error E17: line longer than 65535 bytes\n",
    ..REFUSED
};

#[test]
fn a_line_may_not_have_65536_bytes(rt: HostRuntime) -> Result<(), Fail> {
    let line = vec![in rt.alloc(); b'x'; 65_536]?;
    assert!(rt; gives_over(&rt, TOO_LONG, &[(".config", &line)])?);
    Ok(())
}

// Whether the run of this case keeps a tree.
fn keeps(rt: &HostRuntime, case: &Case) -> Result<bool, Fail> {
    let mut device = MemoryDevice::new(rt.alloc(), case.files, case.plan);
    let Ended { is_kept, .. } = run_case(rt, case, &mut device)?;
    Ok(is_kept)
}

#[test]
fn an_accepted_tree_is_kept(rt: HostRuntime) -> Result<(), Fail> {
    assert!(rt; keeps(&rt, &DONE)?);
    assert!(rt; keeps(&rt, TOO_LONG)?);
    for case in [&FAULTS[0], &REFUSALS[0]] {
        assert!(rt; !keeps(&rt, case)?, "{}", case.name);
    }
    Ok(())
}

// The number of opened files, if each was read to its end before the next one.
fn opened_in_turn(records: &[Record]) -> Option<u64> {
    let mut is_open = false;
    let mut opened = 0_u64;
    for record in records {
        match record.action {
            Action::Open if is_open => return None,
            Action::Open => {
                is_open = true;
                opened = opened.saturating_add(1);
            }
            Action::Read if record.bytes.is_empty() => is_open = false,
            _ => {}
        }
    }
    Some(opened)
}

// More fragments than the number of files that a process may have open.
#[test]
fn one_file_is_open_at_a_time(rt: HostRuntime) -> Result<(), Fail> {
    let mut words = words_of(rt.alloc(), DONE.arguments)?;
    for _ in 0..1_100 {
        words.push(String::from_str(rt.alloc(), "x.cfg")?)?;
    }
    let files = [(".config", b"\n".as_slice()), ("x.cfg", b"\n".as_slice())];
    let mut device = MemoryDevice::new(rt.alloc(), &files, SEVEN);
    let ended = run_words(&rt, &DONE, words, &mut device);
    assert!(rt; ended.status == Status::Done);
    let opened = match device.records() {
        Some(records) => opened_in_turn(records),
        None => None,
    };
    assert!(rt; opened == Some(1_101), "{opened:?}");
    Ok(())
}
