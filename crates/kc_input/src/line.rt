//! The meaning of one line of a `.config`.
ghost use Rattle.std.specs.Prelude.{◌≡◌, find, not, option_map};
ghost use Rattle.std.specs.Option.{option_copied};
ghost use Rattle.std.specs.List.{list_any};
ghost use Rattle.kc_language.specs.Tokens.{is_blank};
ghost use Rattle.kc_language.specs.ConfigFile as spec;
ghost use Rattle.kc_input.specs.PartsOfConfigFile as spec_parts;
ghost use Rattle.kc_input.specs.ConfigFileLine.{meaning_view};

use bstr::ByteSlice;
use kc_text::is_blank;

/// The meaning of one line under a prefix, for any tree.
#[derive(Clone, Copy, Debug, PartialEq, Eq)]
pub enum ConfigFileLine<'a> {
    /// Nothing: the line is empty or a comment.
    Nothing,
    /// `# CONFIG_NAME is not set`.
    Unset(&'a [u8]),
    /// `CONFIG_NAME=value`, with the text right of the first `=`.
    Set(&'a [u8], &'a [u8]),
    /// Any other line.
    Malformed,
}

/// Parses a line without its line end. Drops blanks (space and tab) at its end. Then an empty line means nothing. `#
/// CONFIG_NAME is not set` unsets NAME, which has at least one byte and no blank. Any other line whose first byte that
/// is not a blank is `#` means nothing. `CONFIG_NAME=value` sets NAME, at least one byte up to the first `=`. Any other
/// line is malformed. The prefix takes the place of `CONFIG_`. (The details are our own.)
pub fn parse_config_file_line<'a>(prefix: &[u8], bytes: &'a [u8]) -> ConfigFileLine<'a>
    ensures { meaning_view result ≡ spec.meaning_of prefix.now bytes.now }
{
    let text = trimmed(bytes);
    if text.is_empty() {
        return ConfigFileLine::Nothing;
    }
    if let Some(name) = unset_name(prefix, text) {
        return ConfigFileLine::Unset(name);
    }
    if is_comment(text) {
        return ConfigFileLine::Nothing;
    }
    match name_and_value(prefix, text) {
        Some((name, value)) => ConfigFileLine::Set(name, value),
        None => ConfigFileLine::Malformed,
    }
}

// The line without its trailing blanks.
#[tactic(auto, using(crate::proofs::BlankLemmas::trimmed_to))]
fn trimmed(bytes: &[u8]) -> &[u8]
    ensures { result.now ≡ spec_parts.trimmed bytes.now }
{
    let mut end = bytes.len();
    while end > 0 && is_blank(bytes[end - 1]) {
        end -= 1;
    }
    &bytes[..end]
}

// Whether the text contains a blank.
fn has_blank(text: &[u8]) -> bool
    ensures { result ≡ list_any is_blank text.now }
{
    text.iter().any(|b| is_blank(*b))
}

// Whether the text has at least one byte, and no blank.
fn is_plain(name: &[u8]) -> bool
    ensures { result ≡ spec_parts.is_plain name.now }
{
    !name.is_empty() && !has_blank(name)
}

// The NAME of `# CONFIG_NAME is not set`.
fn unset_name<'a>(prefix: &[u8], text: &'a [u8]) -> Option<&'a [u8]>
    ensures { option_copied result ≡ spec.unset_name prefix.now text.now }
{
    let name = text
        .strip_prefix(b"# ")?
        .strip_prefix(prefix)?
        .strip_suffix(b" is not set")?;
    if is_plain(name) { Some(name) } else { None }
}

// The first byte that is not a blank.
fn first_nonblank(text: &[u8]) -> Option<u8>
    ensures { result ≡ find (λ b. not (is_blank b)) text.now }
{
    text.iter().copied().find(|b| !is_blank(*b))
}

// Whether the first byte that is not a blank is `#`.
fn is_comment(text: &[u8]) -> bool
    ensures { result ≡ spec_parts.is_comment text.now }
{
    match first_nonblank(text) {
        Some(first) => first == b'#',
        None => false,
    }
}

// The NAME and the value of `CONFIG_NAME=value`.
fn name_and_value<'a>(prefix: &[u8], text: &'a [u8]) -> Option<(&'a [u8], &'a [u8])>
    ensures { option_map (λ parts. (parts.0.now, parts.1.now)) result ≡ spec.name_and_value prefix.now text.now }
{
    split_at_equals(text.strip_prefix(prefix)?)
}

// The bytes before the first `=` and the bytes after it.
fn split_at_equals(text: &[u8]) -> Option<(&[u8], &[u8])>
    ensures { option_map (λ parts. (parts.0.now, parts.1.now)) result ≡ spec_parts.split_at_equals text.now }
{
    match text.find_byte(b'=') {
        None => None,
        Some(at) => {
            if at == 0 {
                return None;
            }
            Some((&text[..at], &text[at + 1..]))
        }
    }
}
