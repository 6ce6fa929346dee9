//! Lists of configurations.

ghost use Rattle.std.specs.Prelude.{◌≡◌, IfOk, map, string_bytes};
ghost use Rattle.kc_words.specs.Refusals.{IsListOf};
ghost use Rattle.kc_words.specs.CommandLine.{listed};

use std::alloc::{AllocError, Global};
use std::str::from_utf8;

// The lines of a text that are not empty.
fn names_of(alloc: Global, text: &str) -> Result<Vec<String>, AllocError>
    ensures { IfOk result (λ names. map string_bytes names.items ≡ listed text.now) }
{
    let mut names = Vec::new(alloc);
    for line in text.lines() {
        if !line.is_empty() {
            names.push(String::from_str(alloc, line)?)?;
        }
    }
    Ok(names)
}

/// Returns the names in a list of configurations (our own): its lines, each without its line feed and one carriage
/// return before that. Empty lines are left out. Returns None if the bytes are not UTF-8. Fails only if there is not
/// enough memory.
pub fn list_of(alloc: Global, bytes: &[u8]) -> Result<Option<Vec<String>>, AllocError>
    ensures { IfOk result (IsListOf bytes.now) }
{
    match from_utf8(bytes) {
        Ok(text) => Ok(Some(names_of(alloc, text)?)),
        Err(_) => Ok(None),
    }
}
