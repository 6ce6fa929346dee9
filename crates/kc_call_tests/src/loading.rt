//! Loading from a folder in memory: the order in which files are read, a file that fails, and a million lines
//! (kc_load).
ghost use Rattle.std.specs.Prelude.{◌≡◌, ◌++◌, ◌∷◌, [], Some, IfOk, OnErr, OnOk, map, option_map};
ghost use Rattle.kc_language.specs.Expansion.{bytes_in};

use crate::files::{Piece, has_files, has_names, put_pieces};
use kc_load::*;
use kc_read::FileMap;
use std::alloc::{AllocError, Global};

// Files by path, one of which may fail; the paths at which a read failed; and the paths that were read, each followed
// by a blank.
#[derive(Drop)]
struct MemoryFolder<'a> {
    files: FileMap,
    failing: &'a str,
    failed: Vec<Vec<u8>>,
    asked: String,
    alloc: Global,
}

impl<'a> Folder for MemoryFolder<'a> {
    ghost state = { λ s. Some (record { files = bytes_in s.files.entries; failed = map (λ p. p.items) s.failed.items }) };

    fn read(&mut self, path: &str) -> Result<Option<Vec<u8>>, FolderFault> {
        note(&mut self.asked, path)?;
        if path == self.failing {
            keep(self.alloc, &mut self.failed, path)?;
            return Err(FolderFault::Device);
        }
        Ok(copied(self.alloc, self.files.get(path.as_bytes()))?)
    }
}

// Records a path at which the device failed. If there is not enough memory, nothing changes.
fn keep(alloc: Global, failed: &mut Vec<Vec<u8>>, path: &str) -> Result<(), AllocError>
    ensures kept { OnOk result (map (λ p. p.items) failed.new.items ≡ map (λ p. p.items) failed.old.items ++ path.now ∷ []) }
    ensures refused { OnErr result (failed.new.items ≡ failed.old.items) }
{
    let copy = Vec::from_slice(alloc, path.as_bytes())?;
    failed.push(copy)?;
    Ok(())
}

// Adds a path that is read.
fn note(asked: &mut String, path: &str) -> Result<(), AllocError> {
    asked.push_str(path)?;
    asked.push_str(" ")
}

fn copied(alloc: Global, bytes: Option<&[u8]>) -> Result<Option<Vec<u8>>, AllocError>
    ensures { IfOk result (λ found. option_map (λ b. b.items) found ≡ option_map (λ b. b.now) bytes.entry) }
{
    match bytes {
        Some(bytes) => Ok(Some(Vec::from_slice(alloc, bytes)?)),
        None => Ok(None),
    }
}

// Files by path, a name that is loaded from them, and the result: the paths that are read, how often the device fails,
// and what is loaded.
#[derive(Clone, Copy)]
struct Case {
    name: &'static str,
    files: &'static [(&'static str, &'static [Piece<'static>])],
    failing: &'static str,
    dir: &'static str,
    root: &'static str,
    asked: &'static str,
    failures: usize,
    loaded: Loaded,
}

// The loaded files: for these names whether they exist, and files with their bytes; or the name of the file that
// failed.
#[derive(Clone, Copy)]
enum Loaded {
    Files(&'static [(&'static str, bool)], &'static [(&'static str, &'static [u8])]),
    CannotRead(&'static str),
}

fn fill(alloc: Global, map: &mut FileMap, case: &Case) -> Result<(), AllocError> {
    for (path, pieces) in case.files {
        put_pieces(alloc, map, path.as_bytes(), pieces)?;
    }
    Ok(())
}

fn is_loaded(outcome: &Result<FileMap, LoadFault>, loaded: Loaded) -> bool {
    match (outcome, loaded) {
        (Ok(map), Loaded::Files(names, files)) => has_names(map, names) && has_files(map, files),
        (Err(LoadFault::CannotRead(unread)), Loaded::CannotRead(name)) => {
            unread.as_slice() == name.as_bytes()
        }
        _ => false,
    }
}

// Whether the case's files are loaded as expected.
fn holds(alloc: Global, case: &Case) -> bool {
    let mut folder = MemoryFolder {
        files: FileMap::new(alloc, false),
        failing: case.failing,
        failed: Vec::new(alloc),
        asked: String::new(alloc),
        alloc,
    };
    let filled = fill(alloc, &mut folder.files, case).is_ok();
    let outcome = load(alloc, &mut folder, case.dir, case.root, false);
    filled
        && is_loaded(&outcome, case.loaded)
        && folder.asked.as_str() == case.asked
        && folder.failed.len() == case.failures
}

const ONCE: Case = Case {
    name: "files are read depth first and once",
    files: &[
        (
            "d/K",
            &[(
                1,
                b"source \"a\"\nsource \"b\"\nsource \"\xFF\"\nsource \"x\"\n",
            )],
        ),
        ("d/a", &[(1, b"source \"/c\"\nsource \"K\"")]),
        ("/c", &[(1, b"source \"x\"\nsource \"b\"")]),
        ("d/b", &[(1, b"source \"a\"\nconfig B")]),
        ("d/e", &[(1, b"")]),
    ],
    failing: "-",
    dir: "d",
    root: "K",
    asked: "d/K d/a /c d/x d/b ",
    failures: 0,
    loaded: Loaded::Files(
        &[
            ("K", true),
            ("a", true),
            ("/c", true),
            ("x", false),
            ("b", true),
            ("e", false),
            ("c", false),
            ("d/K", false),
        ],
        &[("b", b"source \"a\"\nconfig B")],
    ),
};

const CASES: &[Case] = &[
    ONCE,
    Case {
        name: "a file that sources itself is read once",
        files: &[("./Kconfig", &[(1, b"source \"Kconfig\"\n")])],
        dir: ".",
        root: "Kconfig",
        asked: "./Kconfig ",
        loaded: Loaded::Files(&[], &[("Kconfig", b"source \"Kconfig\"\n")]),
        ..ONCE
    },
    Case {
        name: "a file that cannot be read is named",
        files: &[(
            "d/Kconfig",
            &[(1, b"source \"a\"\nsource \"/b\"\nsource \"c\"")],
        )],
        failing: "/b",
        root: "Kconfig",
        asked: "d/Kconfig d/a /b ",
        failures: 1,
        loaded: Loaded::CannotRead("/b"),
        ..ONCE
    },
    Case {
        name: "a file fails before those after it are asked for",
        files: &[
            ("d/K", &[(1, b"source \"a\"\nsource \"b\"")]),
            ("d/a", &[(1, b"source \"c\"")]),
        ],
        failing: "d/c",
        asked: "d/K d/a d/c ",
        failures: 1,
        loaded: Loaded::CannotRead("c"),
        ..ONCE
    },
    Case {
        name: "a root that is not there gives no files",
        files: &[],
        dir: "",
        root: "Kconfig",
        asked: "/Kconfig ",
        loaded: Loaded::Files(&[("Kconfig", false)], &[]),
        ..ONCE
    },
];

#[test]
fn files_are_loaded(rt: HostRuntime) {
    for case in CASES {
        assert!(rt; holds(rt.alloc(), case), "{}", case.name);
    }
}

// A root file of two lines, and the lines of `a`.
const MILLION: Case = Case {
    name: "a million lines and one are a reason to stop",
    files: &[
        ("./K", &[(1, b"source \"a\"\nsource \"b\"\n")]),
        ("./a", &[(999_999, b"\n")]),
    ],
    failing: "-",
    dir: ".",
    root: "K",
    asked: "./K ./a ",
    failures: 0,
    loaded: Loaded::Files(&[("a", true)], &[]),
};

const LONG_CASES: &[Case] = &[
    MILLION,
    Case {
        name: "a file after them is not asked for",
        failing: "./b",
        ..MILLION
    },
    Case {
        name: "a million lines are no reason to stop",
        files: &[
            ("./K", &[(1, b"source \"a\"\nsource \"b\"\n")]),
            ("./a", &[(999_998, b"\n")]),
        ],
        asked: "./K ./a ./b ",
        ..MILLION
    },
    Case {
        name: "a file after a million lines is asked for and fails",
        files: &[
            ("./K", &[(1, b"source \"a\"\nsource \"b\"\n")]),
            ("./a", &[(999_998, b"\n")]),
        ],
        failing: "./b",
        asked: "./K ./a ./b ",
        failures: 1,
        loaded: Loaded::CannotRead("b"),
        ..MILLION
    },
];

#[test]
fn loading_stops_after_a_million_lines(rt: HostRuntime) {
    for case in LONG_CASES {
        assert!(rt; holds(rt.alloc(), case), "{}", case.name);
    }
}
