//! A text in memory, which grows part by part.
ghost use Rattle.std.specs.Prelude.{◌≡◌, ◌++◌, OnOk, flat_map};
ghost use Rattle.kc_input.specs.PartsOfConfigFile.{between_quotes};

use kc_text::escape_into;
use std::alloc::AllocError;

/// Adds the parts, one after another.
#[inline(always)]
pub fn add_parts(parts: &[&[u8]], text: &mut Vec<u8>) -> Result<(), AllocError>
    ensures { OnOk result (text.new.items ≡ text.old.items ++ flat_map (λ part. part.now) parts.now) }
{
    for part in parts {
        text.extend_from_slice(part)?;
    }
    Ok(())
}

/// Adds a string as written between quotes: raw, or with a `\` before each `"` and `\`.
pub fn add_between_quotes(is_raw: bool, string: &[u8], text: &mut Vec<u8>) -> Result<(), AllocError>
    ensures { OnOk result (text.new.items ≡ text.old.items ++ between_quotes is_raw string.now) }
{
    if is_raw {
        text.extend_from_slice(string)
    } else {
        escape_into(string, text)
    }
}
