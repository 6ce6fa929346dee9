//! Reading files: the number of lines and symbols, where a line may be, inputs at a limit and one past it, which are
//! generated, and the names that a file sources (kc_read).

use crate::files::{
    Piece, has_files, has_names, letters_into, pieces_into, put, put_all, put_pieces, refusal_into,
};
use kc_expr::names::Names;
use kc_read::{FileMap, expand, sources_of};
use std::alloc::{AllocError, Global};

// Files, and the expected result of reading them: `ROOT => WANT`, or `ROOT ++ A => WANT` with a file `a`. In a file `~`
// is a line feed, `^` a carriage return and `@` a tab.
const READ: &str = r#"config config => 1 lines, 1 symbols
config 5 => 1 lines, 1 symbols
config _aZ09 => 1 lines, 1 symbols
 => 0 lines, 0 symbols
~ @~# c~@# c~ => 0 lines, 0 symbols
config A~~# c~@bool~menuconfig A~@modules~ => 4 lines, 1 symbols
menu m~choice~endchoice~menu m~endmenu~endmenu~ => 6 lines, 0 symbols
choice~menuconfig A~bool~if y~comment c~endif~endchoice~ => 7 lines, 1 symbols
config A~modules~config B~config A~option modules~modules~ => 6 lines, 2 symbols
config A~@bool "a"~@help~@  text~~@  config Q~default y~ => 4 lines, 1 symbols
config A~help~~ @~  $ "~~   &~ default y~ => 3 lines, 1 symbols
config A~help~  a~ bool~ => 3 lines, 1 symbols
config A~@help~@  text => 2 lines, 1 symbols
config A~help => 2 lines, 1 symbols
config A~help # c~ text~ => 2 lines, 1 symbols
choice~help~ text~endchoice~ => 3 lines, 0 symbols
# c \~foo~config A~ => 1 lines, 1 symbols
config A\~ => 1 lines, 1 symbols
config \^~A\^~ => 1 lines, 1 symbols
config A^~@bool^~^~ => 2 lines, 1 symbols
config A # "$~ => 1 lines, 1 symbols
comment 'it\'s'~ => 1 lines, 0 symbols
source "a"~ ++ config A~bool~ => 2 lines, 1 symbols
source a ++ config A => 1 lines, 1 symbols
source '\a' ++ config A => 1 lines, 1 symbols
config X~bool "x"~source "a"~if X~source "a"~endif~ ++ config Z~@bool "z"~ => 8 lines, 2 symbols
choice~prompt c~source a~endchoice~ ++ config A^~bool "a"^~if y^~endif^~ => 7 lines, 1 symbols
choice~endchoice~source a~ ++ mainmenu m~ => 3 lines, 0 symbols
source a~source a~source a ++ config A => 3 lines, 1 symbols
if y~source a~endif~ ++ menu m~endmenu~ => 4 lines, 0 symbols"#;

// Each line, and how it is read after a config, a choice, a menu, a comment and an `if`: correct (`+`), misplaced (`-`)
// or unsupported (`o`).
const PLACES: &str = r#"bool => ++---
bool p if A => ++---
tristate => +o---
tristate p => +o---
string => +----
int p => +----
hex => +----
prompt p => ++---
default A => ++---
def_bool y => +----
def_tristate m if A => +----
depends on A => ++++-
visible if A => --+--
select A => +----
imply A if B => +----
range 1 2 => +----
help => ++---
---help--- => ++---
modules => +----
option modules => +----
option allnoconfig_y => +----
config A => +++++
menuconfig A => +++++
if A => +++++
comment c => +++++
source a => +++++
menu m => +-+++
choice => +-+++
mainmenu m => +-+++
# none => +++++"#;

// A file and the names in its `source` lines, each followed by a `;`.
const SOURCE_LISTS: &str = r#" => 
source "a"~source b~source a => a;b;a;
foo~endif~if y~source 'c\d'^~source ""~ => cd;;
source a~$~source b~ => a;
source a~"~source b~ => a;
source a~source "*"~source b~ => a;
source a~source a b~source b~ => a;
source a~source if~source b~ => a;
source a~rsource b~osource c~source b~ => a;b;
"source" a~source b~ => b;
help~ source a~source b~ => b;
help x~ source a~ source b~source c~ => c;
sour\~ce a~# \~source b~source c => a;c;
source a~~@source \~@b # c~ => a;b;
sour\~ce a => a;
config A~@bool~@help~@@a text~config B~ => 
foo $~& => 
# resource~config A~@prompt "source a"~resource b~ => "#;

// The functions that check a case own what they compare. In a test, each early exit would prove its drops again.

// Adds the number of lines and symbols of the file `Kconfig`, or its refusal.
fn outcome_into(alloc: Global, map: &FileMap, names: &mut Names, text: &mut String) {
    match expand(alloc, map, b"Kconfig", names) {
        Ok(expansion) => {
            let entries = &expansion.entries;
            let lines = entries.first_lines.len() + entries.attributes.len();
            let symbols = expansion.defined.count();
            let _ = write!(text, "{lines} lines, {symbols} symbols");
        }
        Err(refusal) => refusal_into(&refusal, text),
    }
}

// Whether the file `Kconfig` gives this result.
fn gives_outcome(alloc: Global, map: &FileMap, want: &str) -> bool {
    let mut names = Names::new(alloc);
    let mut text = String::new(alloc);
    outcome_into(alloc, map, &mut names, &mut text);
    text.as_str() == want
}

// Whether a root file with the file `a` gives this result.
fn gives(alloc: Global, root: &[Piece], other: &[Piece], want: &str) -> bool {
    let mut map = FileMap::new(alloc, false);
    put_pieces(alloc, &mut map, b"Kconfig", root).is_ok()
        && put_pieces(alloc, &mut map, b"a", other).is_ok()
        && gives_outcome(alloc, &map, want)
}

// The text before and after the sign.
fn cut<'a>(case: &'a str, sign: &str) -> (&'a str, &'a str) {
    case.split_once(sign).unwrap_or((case, ""))
}

fn is_read(alloc: Global, case: &str) -> bool {
    let (files, want) = cut(case, " => ");
    let (root, other) = cut(files, " ++ ");
    gives(
        alloc,
        &[(1, root.as_bytes())],
        &[(1, other.as_bytes())],
        want,
    )
}

#[test]
fn lines_and_symbols_are_counted(rt: HostRuntime) {
    for case in READ.lines() {
        assert!(rt; is_read(rt.alloc(), case), "{case}");
    }
}

const MISPLACED: &str = "Kconfig:2 E10: misplaced";

const LEFT_OUT: &str = "Kconfig:2 E7: tristate choice is left out";

// Whether a line after an entry is read as the sign says, with an empty file `a`.
fn is_taken(alloc: Global, entry: &str, line: &str, sign: u8) -> bool {
    let root = &[(1, entry.as_bytes()), (1, line.as_bytes())];
    let other = &[(1, b"".as_slice())];
    let (is_misplaced, is_left_out) = (
        gives(alloc, root, other, MISPLACED),
        gives(alloc, root, other, LEFT_OUT),
    );
    match sign {
        b'-' => is_misplaced,
        b'o' => is_left_out,
        _ => sign == b'+' && !is_misplaced && !is_left_out,
    }
}

const PLACED: &[&str] = &["config Z~", "choice~", "menu m~", "comment c~", "if y~"];

// Whether a line is read as its signs say after each kind of entry.
fn has_places(alloc: Global, case: &str) -> bool {
    let (line, signs) = cut(case, " => ");
    for (entry, sign) in PLACED.iter().zip(signs.as_bytes()) {
        if !is_taken(alloc, entry, line, *sign) {
            return false;
        }
    }
    signs.len() == PLACED.len()
}

#[test]
fn each_line_has_its_place(rt: HostRuntime) {
    for case in PLACES.lines() {
        assert!(rt; has_places(rt.alloc(), case), "{case}");
    }
}

// Adds the names, each followed by a `;`.
fn names_into(names: &[Vec<u8>], text: &mut String) {
    for name in names {
        letters_into(name, text);
        let _ = text.push(';');
    }
}

// Whether the file sources these names, each followed by a `;`.
fn sources(alloc: Global, file: &[u8], want: &str) -> bool {
    let mut text = String::new(alloc);
    match sources_of(alloc, file) {
        Ok(names) => {
            names_into(&names, &mut text);
            text.as_str() == want
        }
        Err(_) => false,
    }
}

// Whether the file of a case, before the arrow, sources the names after the arrow.
fn has_sources(alloc: Global, case: &str) -> bool {
    let (file, want) = cut(case, " => ");
    let mut bytes = Vec::new(alloc);
    pieces_into(&[(1, file.as_bytes())], &mut bytes).is_ok() && sources(alloc, &bytes, want)
}

#[test]
fn sources_end_at_the_first_bad_line(rt: HostRuntime) {
    for case in SOURCE_LISTS.lines() {
        assert!(rt; has_sources(rt.alloc(), case), "{case}");
    }
}

// The parts of a root file and of the file `a`, and their result.
type Case = (
    &'static [Piece<'static>],
    &'static [Piece<'static>],
    &'static str,
);

// Lines, levels and blocks at their limits. Cases show that one more is refused.
const LIMITS: &[Case] = &[
    (&[(8191, b"#")], &[], "0 lines, 0 symbols"),
    (
        &[(1, b"~"), (8191, b"#"), (1, b"^~")],
        &[],
        "0 lines, 0 symbols",
    ),
    (
        &[(1, b"~#\\~"), (8190, b"#"), (1, b"\\~~~")],
        &[],
        "0 lines, 0 symbols",
    ),
    (&[(1, b"config "), (255, b"A")], &[], "1 lines, 1 symbols"),
    (
        &[(1, b"config A~default "), (64, b"!"), (1, b"y")],
        &[],
        "2 lines, 1 symbols",
    ),
    (
        &[(1, b"if "), (70, b"(A)&&"), (1, b"!(B)~endif")],
        &[],
        "2 lines, 0 symbols",
    ),
    (
        AROUND,
        &[(24, b"if y~"), (24, b"endif~")],
        "128 lines, 0 symbols",
    ),
    (
        &[
            (1, b"config A~depends on "),
            (64, b"("),
            (1, b"m"),
            (64, b")"),
        ],
        &[],
        "2 lines, 1 symbols",
    ),
    (
        &[(1, b"config A~default a"), (1_636, b" && a")],
        &[],
        "2 lines, 1 symbols",
    ),
    // In memory a file may have an empty name.
    (&[(1, b"source \"\"")], &[], "Kconfig:1 E1: no file "),
];

// Forty blocks around the file `a`, which opens up to 25 blocks in them.
const AROUND: &[Piece] = &[
    (39, b"if y~"),
    (1, b"choice~source a~endchoice~"),
    (39, b"endif~"),
];

#[test]
fn limits_of_a_line_and_of_blocks_hold_to_the_last_one(rt: HostRuntime) {
    for case in LIMITS {
        assert!(rt; gives(rt.alloc(), case.0, case.1, case.2), "{}", case.2);
    }
}

// Files each of which sources the next, whose name is one letter longer, once or twice. Holds the name and the text of
// the last one, and the result of the first, `Kconfig`, with the file `long`.
#[derive(Clone, Copy)]
struct Chain {
    last: &'static str,
    twice: bool,
    text: &'static str,
    long: &'static [Piece<'static>],
    want: &'static str,
}

// Puts the files before the last one of a chain.
fn put_chain(alloc: Global, map: &mut FileMap, chain: &Chain) -> Result<(), AllocError> {
    let again = if chain.twice { 1 } else { 0 };
    let mut name = chain.last.as_bytes();
    for _ in "Kconfig".len()..chain.last.len() {
        if let [_, before @ ..] = name {
            let lines = [
                (1, b"source ".as_slice()),
                (1, name),
                (1, b"~"),
                (again, b"source "),
                (again, name),
                (again, b"~"),
            ];
            put_pieces(alloc, map, before, &lines)?;
            name = before;
        }
    }
    Ok(())
}

fn is_chain(alloc: Global, chain: &Chain) -> bool {
    let mut map = FileMap::new(alloc, false);
    put_chain(alloc, &mut map, chain).is_ok()
        && put(
            alloc,
            &mut map,
            chain.last.as_bytes(),
            chain.text.as_bytes(),
        )
        .is_ok()
        && put_pieces(alloc, &mut map, b"long", chain.long).is_ok()
        && gives_outcome(alloc, &map, chain.want)
}

// The name of the last of 64 files.
const LAST: &str = "aaaaaaaaaaaaaaaaaaaaaaaaaaaaaaaaaaaaaaaaaaaaaaaaaaaaaaaaaaaaaaaKconfig";

// Sixty-four files, and one of more lines than a tree may have.
const LONG: Chain = Chain {
    last: LAST,
    twice: false,
    text: "config A",
    long: &[(1_001_000, b"~")],
    want: "1 lines, 1 symbols",
};

const CHAINS: &[Chain] = &[
    LONG,
    Chain {
        text: "\nsource b",
        want: "aaaaaaaaaaaaaaaaaaaaaaaaaaaaaaaaaaaaaaaaaaaaaaaaaaaaaaaaaaaaaaaKconfig:2 E12: too deep",
        ..LONG
    },
    Chain {
        text: "source long",
        want: "aaaaaaaaaaaaaaaaaaaaaaaaaaaaaaaaaaaaaaaaaaaaaaaaaaaaaaaaaaaaaaaKconfig:1 E12: too deep",
        ..LONG
    },
    Chain {
        text: "source aaaKconfig",
        want: "aaaaaaaaaaaaaaaaaaaaaaaaaaaaaaaaaaaaaaaaaaaaaaaaaaaaaaaaaaaaaaaKconfig:1 E2: file aaaKconfig includes itself",
        ..LONG
    },
    Chain {
        text: "source 'b?'",
        want: "aaaaaaaaaaaaaaaaaaaaaaaaaaaaaaaaaaaaaaaaaaaaaaaaaaaaaaaaaaaaaaaKconfig:1 E7: pattern is left out",
        ..LONG
    },
    // Twenty-one files, each of which sources the next twice.
    Chain {
        last: "aaaaaaaaaaaaaaaaaaaaKconfig",
        twice: true,
        text: "",
        long: &[],
        want: "aaaaaaaaaaaaaaaaaaKconfig:2 E3: more than 1000000 lines",
    },
];

#[test]
fn sixty_four_files_are_open(rt: HostRuntime) {
    for chain in CHAINS {
        assert!(rt; is_chain(rt.alloc(), chain), "{}", chain.want);
    }
}

// A root file that sources the file `a` twice.
const TWICE: &[Piece] = &[(2, b"source \"a\"~")];

// A million lines, and one more.
const MILLIONS: &[Case] = &[
    (TWICE, &[(499_999, b"~")], "0 lines, 0 symbols"),
    (
        TWICE,
        &[(500_000, b"~")],
        "Kconfig:2 E3: more than 1000000 lines",
    ),
    (&[(1_000_000, b"~")], &[], "0 lines, 0 symbols"),
    (
        &[(1_000_000, b"~"), (1, b"#")],
        &[],
        "Kconfig:0 E3: more than 1000000 lines",
    ),
    (
        &[(1, b"source Kconfig~"), (1_000_000, b"~")],
        &[],
        "Kconfig:0 E3: more than 1000000 lines",
    ),
    (
        &[(1, b"source Kconfig~"), (500_000, b"~")],
        &[],
        "Kconfig:1 E2: file Kconfig includes itself",
    ),
];

#[test]
fn a_million_lines_are_counted(rt: HostRuntime) {
    for case in MILLIONS {
        assert!(rt; gives(rt.alloc(), case.0, case.1, case.2), "{}", case.2);
    }
}

// The maximum number of symbols, and a line after them.
const SYMBOLS: &[Case] = &[
    (&[(65_535, b"config %~")], &[], "65535 lines, 65535 symbols"),
    (
        &[(65_535, b"config %~"), (1, b"menuconfig AAAAA")],
        &[],
        "65536 lines, 65535 symbols",
    ),
    (
        &[(65_535, b"config %~"), (1, b"config Z")],
        &[],
        "Kconfig:65536 E16: more than 65535 symbols",
    ),
    (
        &[(65_535, b"config %~"), (1, b"config Z-Z")],
        &[],
        "Kconfig:65536 E11: bad name Z-Z",
    ),
    (
        &[(65_535, b"config %~"), (1, b"config Z Z")],
        &[],
        "Kconfig:65536 E8: syntax",
    ),
];

#[test]
fn symbols_are_counted(rt: HostRuntime) {
    for case in SYMBOLS {
        assert!(rt; gives(rt.alloc(), case.0, case.1, case.2), "{}", case.2);
    }
}

// Files, one of which is put twice, and the files afterwards.
const PUT: &[(&str, &[u8])] = &[("a", b"old"), ("b", b""), ("a", b"new")];

const KEPT: &[(&str, &[u8])] = &[("a", b"new"), ("b", b"")];

fn are_kept(alloc: Global) -> bool {
    let mut map = FileMap::new(alloc, false);
    put_all(alloc, &mut map, PUT).is_ok()
        && has_files(&map, KEPT)
        && has_names(&map, &[("c", false)])
}

#[test]
fn a_name_gets_the_new_bytes(rt: HostRuntime) {
    assert!(rt; are_kept(rt.alloc()));
}
