//! The names that make can read in the dependency file.

ghost use Rattle.std.specs.Prelude.{◌≡◌, false, option_map};
ghost use Rattle.std.specs.List.{list_any};
ghost use Rattle.kc_language.specs.Expressions.{same_name};
ghost use Rattle.kc_language.specs.Files.{ends_in, is_library, is_plain, is_read_by_make, without_dots};
ghost use Rattle.kc_load.specs.PartsOfOutcome.{first_unreadable};
ghost use Rattle.kc_load.specs.PartsOfOutcome.{is_beyond_make, unreadable_of};
ghost use Rattle.kc_language.specs.Files as spec;

use crate::path::begins_with_slash;
use kc_expr::expression::SymId;
use kc_expr::names::Names;

// Whether make treats the byte as more than a part of a name, even after a `\`.
fn is_beyond_make(byte: u8) -> bool
    ensures { result ≡ is_beyond_make byte }
{
    matches!(byte, 0 | 9..=13 | b'=' | b';' | b'*' | b'?' | b'[')
}

// Whether the name has such a byte.
fn has_beyond_make(name: &[u8]) -> bool
    ensures { result ≡ list_any is_beyond_make name.now }
{
    name.iter().any(|byte| is_beyond_make(*byte))
}

// Whether the text ends in one of these bytes.
pub(crate) fn ends_in(bytes: &[u8], text: &[u8]) -> bool
    ensures { result ≡ ends_in bytes.now text.now }
{
    match text.last() {
        Some(last) => bytes.contains(last),
        None => false,
    }
}

// The name without each `./` at its start.
fn without_dots(name: &[u8]) -> &[u8]
    ensures { result.now ≡ without_dots false name.now }
{
    let mut rest = name;
    let mut behind_dot = false;
    'along: while let [byte, behind @ ..] = rest {
        let is_left_out = *byte == b'/' && behind_dot || *byte == b'.' && begins_with_slash(behind);
        if !is_left_out {
            return rest;
        }
        behind_dot = true;
        rest = behind;
    }
    rest
}

// Whether the name is a special target of make.
fn is_special_target(name: &[u8]) -> bool
    ensures { result ≡ list_any (same_name name.now) spec.special_targets }
{
    name == b".DEFAULT".as_slice()
        || name == b".DELETE_ON_ERROR".as_slice()
        || name == b".EXPORT_ALL_VARIABLES".as_slice()
        || name == b".IGNORE".as_slice()
        || name == b".INTERMEDIATE".as_slice()
        || name == b".LOW_RESOLUTION_TIME".as_slice()
        || name == b".NOTINTERMEDIATE".as_slice()
        || name == b".NOTPARALLEL".as_slice()
        || name == b".ONESHELL".as_slice()
        || name == b".PHONY".as_slice()
        || name == b".POSIX".as_slice()
        || name == b".PRECIOUS".as_slice()
        || name == b".SECONDARY".as_slice()
        || name == b".SECONDEXPANSION".as_slice()
        || name == b".SILENT".as_slice()
        || name == b".SUFFIXES".as_slice()
        || name == b".WAIT".as_slice()
}

// Whether make searches the name among its libraries.
fn is_library(name: &[u8]) -> bool
    ensures { result ≡ is_library name.now }
{
    match name {
        [first, second, ..] => *first == b'-' && *second == b'l',
        _ => false,
    }
}

// Whether the name is not a home folder, library or special target.
fn is_plain(name: &[u8]) -> bool
    ensures { result ≡ is_plain name.now }
{
    match name {
        [] => false,
        [first, ..] => *first != b'~' && !is_library(name) && !is_special_target(name),
    }
}

// Whether make reads the name correctly in every position of a rule.
fn is_read_by_make(name: &[u8]) -> bool
    ensures { result ≡ is_read_by_make name.now }
{
    !has_beyond_make(name) && !ends_in(b" &)", name) && is_plain(without_dots(name))
}

/// Returns the first name in a dependency file that GNU make cannot read: `out`, otherwise the first such file.
///
/// make cannot read an empty name, a name with the byte 0, one of 9 to 13 (tab, line feed, ..), `=`, `;`, `*`, `?` or
/// `[`, and a name that ends in a blank, `&` or `)`. It reads a `~` at the start as a home folder and `-l` as a
/// library, and names such as `.PHONY` as special targets. It ignores each `./` before these. Some of these names it
/// reads in some positions. They are refused in every position (our own; tested with GNU make 4.3). Does not allocate.
pub fn unreadable_name<'n>(out: &'n [u8], files: &'n Names) -> Option<&'n [u8]>
    ensures { option_map (λ name. name.now) result ≡ unreadable_of out.now files.now }
{
    if !is_read_by_make(out) {
        return Some(out);
    }
    for i in 0..files.count() {
        let name = files.name(SymId(i));
        if !is_read_by_make(name) {
            return Some(name);
        }
    }
    None
}
