//! The limits, at the limit and one past it.
use crate::case::{Case, PLAIN_CASE, holds};
use crate::texts::{EMPTY, Part, Text};
use crate::trees::TWO;
use kc_conf::Status;
use kc_io::Action;
use kc_memory_device::{Plan, SMOOTH};
use std::test::Fail;

// A `.config` without a symbol: only its heading.
const HEADING: Text = Text {
    before: "#\n\
        # Automatically generated file; DO NOT EDIT.\n\
        # Main menu\n\
        #\n",
    ..EMPTY
};

/// The `.config` of the tree of two symbols.
pub(crate) const TWO_CONFIG: Text = Text {
    after: "CONFIG_A=y\n# CONFIG_B is not set\n",
    ..HEADING
};

const THREE: &str = "config A\n\
    \tbool \"a\"\n\
    \tdefault y\n\
    config B\n\
    \tbool \"b\"\n\
    \tdefault n\n\
    config C\n\
    \tbool\n\
    \tdefault y\n";

// This many bytes `x`, which are not a line of a `.config`.
const LINE: Text = Text {
    line: &[Part::Plain("x")],
    ..EMPTY
};

// A line of 65,535 bytes is read, and writing its text again gives the same.
const READ: Case = Case {
    name: "a line may have 65535 bytes",
    kconfig: Text {
        before: TWO,
        ..EMPTY
    },
    settings: Text {
        count: 65_535,
        ..LINE
    },
    config: Some(TWO_CONFIG),
    diagnostics: Text {
        before: ".config:1: warning K9: malformed line\n",
        ..EMPTY
    },
    is_stable: true,
    ..PLAIN_CASE
};

const TOO_LONG: Case = Case {
    name: "a line has at most 65535 bytes",
    settings: Text {
        count: 65_536,
        ..LINE
    },
    status: Status::Refused,
    config: None,
    diagnostics: Text {
        before: ".config:1: error E17: line longer than 65535 bytes\n",
        ..EMPTY
    },
    is_stable: false,
    ..READ
};

// Each read returns one byte, and reads are counted.
const BYTE_BY_BYTE: Plan = Plan {
    later_reads: 1,
    counted: Some(Action::Read),
    ..SMOOTH
};

const READ_AND_CUT: Case = Case {
    name: "a line that is not too long may be cut",
    from: 1,
    to: 65_536,
    is_stable: false,
    ..READ
};

// A string's line with a text of 64,998 bytes.
const STRING: Text = Text {
    before: "CONFIG_S=\"",
    count: 64_998,
    line: &[Part::Plain("a")],
    after: "\"\n",
};

const STRING_CONFIG: Text = Text {
    before: "#\n\
        # Automatically generated file; DO NOT EDIT.\n\
        # Main menu\n\
        #\n\
        CONFIG_S=\"",
    ..STRING
};

const RESTORED: Case = Case {
    name: "the minimal file restores a long value",
    kconfig: Text {
        before: "config S\n\tstring \"s\"\n",
        ..EMPTY
    },
    settings: STRING,
    config: Some(STRING_CONFIG),
    ..PLAIN_CASE
};

const DEFAULT: Case = Case {
    name: "without the minimal file there is another value",
    settings: EMPTY,
    config: Some(Text {
        after: "CONFIG_S=\"\"\n",
        ..HEADING
    }),
    ..RESTORED
};

const NEWLINES: Text = Text {
    line: &[Part::Plain("\n")],
    ..EMPTY
};

// A root file that sources `a` twice; `a` has this many empty lines.
const MILLION: Case = Case {
    name: "the files may have a million lines",
    kconfig: Text {
        before: "source \"a\"\nsource \"a\"\n",
        ..EMPTY
    },
    others: &[(
        "a",
        Text {
            count: 499_999,
            ..NEWLINES
        },
    )],
    config: Some(HEADING),
    is_stable: true,
    ..PLAIN_CASE
};

// The definitions of this many symbols without a type.
const UNTYPED: Text = Text {
    line: &[Part::Plain("config S"), Part::Number, Part::Plain("\n")],
    ..EMPTY
};

const SYMBOLS: Case = Case {
    name: "a tree may have 65535 symbols",
    kconfig: Text {
        count: 65_535,
        ..UNTYPED
    },
    config: Some(HEADING),
    diagnostics: Text {
        count: 65_535,
        line: &[
            Part::Plain("Kconfig:"),
            Part::Next,
            Part::Plain(": warning K3: S"),
            Part::Number,
            Part::Plain(" has no type\n"),
        ],
        ..EMPTY
    },
    is_stable: true,
    ..PLAIN_CASE
};

// Symbols each of which has the value of the next one; the last is y. The minimal file has no line.
const CHAIN: Case = Case {
    name: "a chain of 20000 defaults is no loop",
    kconfig: Text {
        count: 19_999,
        line: &[
            Part::Plain("config X"),
            Part::Number,
            Part::Plain("\n\tdef_bool X"),
            Part::Next,
            Part::Plain("\n"),
        ],
        after: "config X19999\n\tdef_bool y\n",
        ..EMPTY
    },
    arguments: "--savedefconfig min.config Kconfig",
    config: Some(Text {
        count: 20_000,
        line: &[Part::Plain("CONFIG_X"), Part::Number, Part::Plain("=y\n")],
        ..HEADING
    }),
    minimal: Some(EMPTY),
    is_stable: true,
    ..PLAIN_CASE
};

const LINES: &[Case] = &[
    READ,
    TOO_LONG,
    Case {
        name: "the line is too long in another tree",
        kconfig: Text {
            before: THREE,
            ..EMPTY
        },
        ..TOO_LONG
    },
    Case {
        name: "nothing is read after a line that is too long",
        settings: Text {
            count: 65_600,
            ..LINE
        },
        from: 1,
        to: 2,
        plan: BYTE_BY_BYTE,
        calls: Some(65_536),
        ..TOO_LONG
    },
    Case {
        name: "a line that is not too long may come byte by byte",
        from: 1,
        to: 2,
        plan: BYTE_BY_BYTE,
        calls: Some(65_536),
        is_stable: false,
        ..READ
    },
    Case {
        name: "warnings stand before a line that is too long",
        settings: Text {
            before: "CONFIG_Q=y\n",
            count: 65_536,
            ..LINE
        },
        diagnostics: Text {
            before: ".config:1: warning K7: unknown symbol Q\n\
                .config:2: error E17: line longer than 65535 bytes\n",
            ..EMPTY
        },
        ..TOO_LONG
    },
    READ_AND_CUT,
];

#[test]
fn a_line_has_65535_bytes_at_most(rt: HostRuntime) -> Result<(), Fail> {
    for case in LINES {
        assert!(rt; holds(rt.alloc(), case)?, "{}", case.name);
    }
    Ok(())
}

const VALUES: &[Case] = &[
    Case {
        name: "a value has at most 65000 bytes",
        arguments: "--savedefconfig min.config Kconfig",
        minimal: Some(STRING),
        is_stable: true,
        ..RESTORED
    },
    RESTORED,
    DEFAULT,
    Case {
        name: "a longer value is dropped",
        settings: Text {
            count: 64_999,
            ..STRING
        },
        diagnostics: Text {
            before: ".config:1: warning K8: value not allowed for S\n",
            ..EMPTY
        },
        is_stable: true,
        ..DEFAULT
    },
];

#[test]
fn a_value_has_65000_bytes_at_most(rt: HostRuntime) -> Result<(), Fail> {
    for case in VALUES {
        assert!(rt; holds(rt.alloc(), case)?, "{}", case.name);
    }
    Ok(())
}

const TREES: &[Case] = &[
    MILLION,
    Case {
        name: "the files have a million lines at most",
        others: &[(
            "a",
            Text {
                count: 500_000,
                ..NEWLINES
            },
        )],
        status: Status::Refused,
        config: None,
        diagnostics: Text {
            before: "Kconfig:2: error E3: more than 1000000 lines\n",
            ..EMPTY
        },
        is_stable: false,
        ..MILLION
    },
    SYMBOLS,
    Case {
        name: "a tree has 65535 symbols at most",
        kconfig: Text {
            count: 65_536,
            ..UNTYPED
        },
        status: Status::Refused,
        config: None,
        diagnostics: Text {
            before: "Kconfig:65536: error E16: more than 65535 symbols\n",
            ..EMPTY
        },
        is_stable: false,
        ..SYMBOLS
    },
    CHAIN,
];

#[test]
fn a_tree_may_be_large(rt: HostRuntime) -> Result<(), Fail> {
    for case in TREES {
        assert!(rt; holds(rt.alloc(), case)?, "{}", case.name);
    }
    Ok(())
}

// This takes longer than the others, so it is separate.
const TOO_LONG_AND_CUT: &[Case] = &[Case {
    name: "a line that is too long may be cut",
    from: 1,
    to: 65_537,
    ..TOO_LONG
}];

#[test]
fn a_line_that_is_too_long_may_be_cut(rt: HostRuntime) -> Result<(), Fail> {
    for case in TOO_LONG_AND_CUT {
        assert!(rt; holds(rt.alloc(), case)?, "{}", case.name);
    }
    Ok(())
}
