//! Patterns of names, filled in for one configuration.

ghost use Rattle.std.specs.Prelude.{◌≡◌, ◌++◌, IfOk, OnOk, string_bytes};
ghost use Rattle.kc_words.specs.CommandLine.{file_name, filled, filled_part};

use std::alloc::{AllocError, Global};

// The part after the last `/`.
fn file_name(path: &str) -> &str
    ensures { result.now ≡ file_name path.now }
{
    let mut name = "";
    for part in path.split('/') {
        name = part;
    }
    name
}

// Adds a part of a pattern after a `{`.
fn push_part(made: &mut String, config: &str, part: &str) -> Result<(), AllocError>
    ensures { OnOk result (string_bytes made.new ≡ string_bytes made.old ++ filled_part config.now part.now) }
{
    if let Some(rest) = part.strip_prefix("}") {
        made.push_str(config)?;
        return made.push_str(rest);
    }
    if let Some(rest) = part.strip_prefix("/}") {
        made.push_str(file_name(config))?;
        return made.push_str(rest);
    }
    made.push_str("{")?;
    made.push_str(part)
}

// The pattern, with the configuration in place of each `{}` and its file name in place of each `{/}`.
pub(crate) fn filled(alloc: Global, config: &str, pattern: &str) -> Result<String, AllocError>
    ensures { IfOk result (λ name. string_bytes name ≡ filled config.now pattern.now) }
{
    let mut made = String::new(alloc);
    let mut is_first = true;
    for part in pattern.split('{') {
        if is_first {
            made.push_str(part)?;
            is_first = false;
        } else {
            push_part(&mut made, config, part)?;
        }
    }
    Ok(made)
}
