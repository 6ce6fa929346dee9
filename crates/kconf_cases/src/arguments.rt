//! The arguments of a case, and those of a second run on the output of the first.

use std::alloc::{AllocError, Global};

/// Returns the arguments in a text, one in each line.
pub(crate) fn arguments_of(alloc: Global, text: &str) -> Result<Vec<String>, AllocError> {
    let mut arguments = Vec::new(alloc);
    for line in text.lines() {
        arguments.push(String::from_str(alloc, line)?)?;
    }
    Ok(arguments)
}

// What the second run does with an option.
enum Role {
    // Keeps it, with its value.
    Kept,
    // Drops it, with its value.
    Dropped,
    // Keeps it; the value is in the same argument.
    Whole,
    // Drops it, with a value in the same argument.
    Flag,
}

fn role_of(option: &str) -> Role {
    match option {
        "--root" | "--prefix" => Role::Kept,
        "--config"
        | "--out"
        | "--header"
        | "--savedefconfig"
        | "--list-new"
        | "--list-gone"
        | "--list-dead"
        | "--depfile"
        | "--explain"
        | "--explain-depth"
        | "--how"
        | "--how-steps"
        | "--fragment"
        | "--include" => Role::Dropped,
        "--flat" | "--raw-strings" => Role::Whole,
        _ if option.starts_with("--root=") || option.starts_with("--prefix=") => Role::Whole,
        _ => Role::Flag,
    }
}

/// Returns the arguments of a run of the same tree, with the same prefix, from the file `config` to the file `out`.
pub(crate) fn rerun_arguments(
    alloc: Global,
    text: &str,
    config: &str,
    out: &str,
) -> Result<Vec<String>, AllocError> {
    let mut arguments = Vec::new(alloc);
    for word in ["--config", config, "--out", out] {
        arguments.push(String::from_str(alloc, word)?)?;
    }
    let mut wanted = None;
    for line in text.lines() {
        let is_kept = match wanted {
            Some(is_kept) => {
                wanted = None;
                is_kept
            }
            None if line.starts_with("-") => {
                let role = role_of(line);
                match role {
                    Role::Kept => {
                        wanted = Some(true);
                        true
                    }
                    Role::Dropped => {
                        wanted = Some(false);
                        false
                    }
                    Role::Whole => true,
                    Role::Flag => false,
                }
            }
            // The first other argument is the root file; fragments follow it.
            None => {
                arguments.push(String::from_str(alloc, line)?)?;
                return Ok(arguments);
            }
        };
        if is_kept {
            arguments.push(String::from_str(alloc, line)?)?;
        }
    }
    Ok(arguments)
}
