//! The notation of names and strings in input and output files.
ghost use Rattle.std.specs.Prelude.{◌≡◌, ◌<◌, length, true, IfOk, OnErr};
ghost use Rattle.kc_language.specs.ConfigFile as spec;
ghost use Rattle.kc_input.specs.PartsOfConfigFile as spec_parts;
ghost use Rattle.kc_input.specs.Prefixes.{prefix_of};

use kc_expr::names::are_name_bytes;
use std::alloc::{AllocError, Global};
use std::marker::Model;

/// The maximum length of a prefix.
const LONGEST_PREFIX: usize = 64;

/// The prefix of each name, such as `CONFIG_`: 0 to 64 of the bytes `A` to `Z`, `a` to `z`, `0` to `9` and `_`, not
/// starting with a digit. (Our own rule; the kernel's tools and kconfiglib take any text.) It also says whether strings
/// are raw: without escapes between their quotes, as U-Boot's `conf` reads and writes them.
#[derive(Debug, Drop)]
pub struct Prefix {
    bytes: Vec<u8>,
    is_raw: bool,
}

impl Model for Prefix {
    ghost use Rattle.std.specs.Prelude.{◌≡◌, true};
    ghost use Rattle.kc_language.specs.ConfigFile.{Notation, is_prefix};

    ghost Value = { Notation };

    ghost view = { λ p. record { prefix = p.bytes.items; is_raw = p.is_raw } };

    ghost invariant = { λ p. is_prefix p.bytes.items ≡ true };
}

impl Prefix {
    /// Returns the text as a prefix, or None if it is not a prefix. With `is_raw` strings have no escapes.
    ///
    /// # Errors
    /// Fails if there is not enough memory, but never for an empty prefix.
    pub fn new(alloc: Global, text: &[u8], is_raw: bool) -> Result<Option<Prefix>, AllocError>
        ensures prefix { IfOk result (λ found. found ≡ prefix_of text.now is_raw) }
        ensures some { OnErr result ((0 < length text.now) × (spec.is_prefix text.now ≡ true)) }
    {
        if !is_prefix(text) {
            return Ok(None);
        }
        let bytes = if text.is_empty() {
            Vec::new(alloc)
        } else {
            Vec::from_slice(alloc, text)?
        };
        Ok(Some(Prefix { bytes, is_raw }))
    }

    /// Returns whether strings are raw, without escapes.
    pub fn is_raw(&self) -> bool
        ensures { result ≡ self.now.is_raw }
    {
        self.is_raw
    }

    /// The bytes of the prefix.
    pub fn as_bytes(&self) -> &[u8]
        ensures bytes { result.now ≡ self.now.prefix }
        ensures prefix { spec.is_prefix self.now.prefix ≡ true }
    {
        &self.bytes
    }
}

// Whether the first byte is a digit.
fn begins_with_digit(text: &[u8]) -> bool
    ensures { result ≡ spec_parts.begins_with_digit text.now }
{
    match text {
        [first, ..] => first.is_ascii_digit(),
        [] => false,
    }
}

// Whether the text is a prefix.
fn is_prefix(text: &[u8]) -> bool
    ensures { result ≡ spec.is_prefix text.now }
{
    !begins_with_digit(text) && text.len() <= LONGEST_PREFIX && are_name_bytes(text)
}
