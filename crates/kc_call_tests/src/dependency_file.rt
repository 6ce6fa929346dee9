//! The dependency file (kc_load): how names are written in it.

use kc_expr::names::Names;
use kc_load::{rule_text, unreadable_name};
use std::alloc::{AllocError, Global};

fn mention_all(names: &mut Names, files: &[&str]) -> Result<(), AllocError> {
    for file in files {
        names.id(file.as_bytes())?;
    }
    Ok(())
}

// Whether this is the dependency file of a run that opened these files.
fn is_rule(alloc: Global, out: &str, files: &[&str], rule: &str) -> bool {
    let mut names = Names::new(alloc);
    mention_all(&mut names, files).is_ok()
        && match rule_text(alloc, out.as_bytes(), &names) {
            Ok(text) => text.as_slice() == rule.as_bytes(),
            Err(_) => false,
        }
}

#[test]
fn each_file_is_a_prerequisite_and_has_an_empty_rule(rt: HostRuntime) {
    let files = &["Kconfig", "a/Kconfig", "b.config"];
    let rule =
        ".config: \\\n Kconfig \\\n a/Kconfig \\\n b.config\n\nKconfig:\n\na/Kconfig:\n\nb.config:\n";
    assert!(rt; is_rule(rt.alloc(), ".config", files, rule));
    assert!(rt; is_rule(rt.alloc(), "o", &[], "o:\n"));
}

// A name, and its form in a rule: as the target, and as the last prerequisite.
const ESCAPED: &[(&str, &str, &str)] = &[
    ("a b", "a\\ b", "a\\ b"),
    ("a\tb", "a\\\tb", "a\\\tb"),
    ("$(a)", "$$(a)", "$$(a)"),
    ("#a", "\\#a", "\\#a"),
    ("a:b", "a\\:b", "a\\:b"),
    ("a\\b", "a\\b", "a\\b"),
    ("a\\ b", "a\\\\\\ b", "a\\\\\\ b"),
    ("\\\\#", "\\\\\\\\\\#", "\\\\\\\\\\#"),
    ("a\\$", "a\\$$", "a\\$$"),
    ("a\\", "a\\\\", "a\\\\ |"),
    ("a\\\\b\\\\", "a\\\\b\\\\\\\\", "a\\\\b\\\\\\\\ |"),
    ("a%b,\"c'", "a\\%b,\"c'", "a%b,\"c'"),
    ("\\%|", "\\\\\\%|", "\\%\\|"),
];

// Whether the name has these forms in a rule.
fn is_escaped(alloc: Global, name: &str, target: &str, prerequisite: &str) -> bool {
    let mut rule = String::new(alloc);
    write!(rule, "{target}: \\\n {prerequisite}\n\n{target}:\n").is_ok()
        && is_rule(alloc, name, &[name], rule.as_str())
}

#[test]
fn a_name_is_escaped(rt: HostRuntime) {
    for (name, target, prerequisite) in ESCAPED {
        assert!(rt;
            is_escaped(rt.alloc(), name, target, prerequisite),
            "{name}"
        );
    }
}

// Names that make can read in a rule.
const READABLE: &[&str] = &[
    "Kconfig",
    "./a",
    "../a",
    "a b",
    " a",
    "a#b",
    "a:b",
    "$(a)b",
    "a%b",
    "a|b",
    "a\\",
    "a~",
    "a&b",
    "a(b",
    ".a",
    "PHONY",
    "d/.PHONY",
    ".PHONYx",
    "a\x08\x0e",
    "..",
    "/~",
    "./.x",
    "-x",
    "l-l",
    "d/-l",
];

// Names that make cannot read, or not in each position.
const UNREADABLE: &[&str] = &[
    "",
    "./",
    "a\tb",
    "a\nb",
    "a\x0b",
    "\x0ca",
    "a\rb",
    "\0",
    "a=b",
    "a;b",
    "a*",
    "a?b",
    "[a",
    "a ",
    "a&",
    "a(b)",
    "~a",
    "./~",
    ".//~",
    "././/~a",
    "-lc",
    "./-l",
    ".PHONY",
    "./.PHONY",
    ".//./.SUFFIXES",
    ".WAIT",
    ".DEFAULT",
];

fn is_readable(alloc: Global, name: &str) -> bool {
    let names = Names::new(alloc);
    unreadable_name(name.as_bytes(), &names).is_none()
}

#[test]
fn a_name_is_readable(rt: HostRuntime) {
    for name in READABLE {
        assert!(rt; is_readable(rt.alloc(), name), "{name}");
    }
    for name in UNREADABLE {
        assert!(rt; !is_readable(rt.alloc(), name), "{name}");
    }
}

// Whether this is the first name that make cannot read in the rule of these files.
fn is_first(alloc: Global, out: &str, files: &[&str], first: Option<&str>) -> bool {
    let mut names = Names::new(alloc);
    mention_all(&mut names, files).is_ok()
        && match (unreadable_name(out.as_bytes(), &names), first) {
            (Some(name), Some(first)) => name == first.as_bytes(),
            (None, None) => true,
            _ => false,
        }
}

#[test]
fn the_first_unreadable_name_is_found(rt: HostRuntime) {
    let alloc = rt.alloc();
    assert!(rt; is_first(alloc, "o", &["a", "b"], None));
    assert!(rt; is_first(alloc, "o=", &["a=", "b="], Some("o=")));
    assert!(rt; is_first(alloc, "o", &["a", "b=", "c="], Some("b=")));
    assert!(rt; is_first(alloc, "o", &[], None));
}
