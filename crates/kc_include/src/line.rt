//! A line that includes a file.
ghost use Rattle.std.specs.Prelude.{◌≡◌};
ghost use Rattle.std.specs.Option.{option_copied, option_map};
ghost use Rattle.kc_include.specs.Included as spec;
ghost use Rattle.kc_include.specs.NameView.{name_of};

use bstr::ByteSlice;
use kc_text::is_blank;

/// The name of a file that a line includes.
#[derive(Clone, Copy, Debug, PartialEq, Eq)]
pub enum IncludedName<'t> {
    /// The NAME of `#include <NAME>`.
    Angled(&'t [u8]),
    /// The NAME of `#include "NAME"`.
    Quoted(&'t [u8]),
}

// The bytes from the first one that is not a blank.
fn without_blanks(bytes: &[u8]) -> &[u8]
    ensures { result.now ≡ spec.without_blanks bytes.now }
{
    let mut rest = bytes;
    'blanks: while let [byte, behind @ ..] = rest {
        if !is_blank(*byte) {
            return rest;
        }
        rest = behind;
    }
    rest
}

// The bytes before the first byte `end`, at least one.
fn name_before(end: u8, bytes: &[u8]) -> Option<&[u8]>
    ensures { option_copied result ≡ spec.name_before end bytes.now }
{
    match bytes.find_byte(end) {
        None => None,
        Some(at) => {
            if at == 0 {
                return None;
            }
            Some(&bytes[..at])
        }
    }
}

// The name between `<` and `>` or between two `"`.
fn enclosed_name(bytes: &[u8]) -> Option<IncludedName<'_>>
    ensures { option_map name_of result ≡ spec.enclosed_name bytes.now }
{
    match bytes {
        [b'<', rest @ ..] => Some(IncludedName::Angled(name_before(b'>', rest)?)),
        [b'"', rest @ ..] => Some(IncludedName::Quoted(name_before(b'"', rest)?)),
        _ => None,
    }
}

/// Returns the name that a line, given without its line end, includes: the NAME of `#include <NAME>` or `#include
/// "NAME"`. Blanks are allowed before and after the `#` and before the name, and the text after the name is ignored.
/// (Our own, after the C preprocessor.)
#[tactic(auto, unfolding(crate::specs::Included::included_name))]
pub fn included_name(line: &[u8]) -> Option<IncludedName<'_>>
    ensures { option_map name_of result ≡ spec.included_name line.now }
{
    let directive = without_blanks(line).strip_prefix(b"#")?;
    let operand = without_blanks(directive).strip_prefix(b"include")?;
    enclosed_name(without_blanks(operand))
}
