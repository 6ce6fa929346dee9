//! A case: its run, and a second run on its output.

use crate::arguments::{arguments_of, rerun_arguments};
use crate::compare::is_same;
use crate::folders::{Entry, entries_here, has_file};
use crate::outcome::{Answer, bytes_of, is_as_written};
use kc_disk::{Arguments, SystemDevice, exit_status, kconf_with};
use std::{env, fs, io};

// The output of a second run.
const AGAIN: &str = "again.config";

// Runs with these arguments in the current folder.
fn run(rt: &HostRuntime, arguments: &Arguments) -> Answer {
    let mut device = SystemDevice::keeping(rt);
    let mut kept = None;
    let ended = kconf_with(rt, arguments, &mut device, &mut kept);
    Answer {
        status: exit_status(ended.status()),
        diagnostics: device.into_diagnostics(),
    }
}

// Runs the case whose folder is the current one, with these lines as arguments.
fn holds_once(rt: &HostRuntime, case: &str, text: &str, before: &[Entry]) -> io::Result<bool> {
    let arguments = Arguments::Given(arguments_of(rt.alloc(), text)?);
    let answer = run(rt, &arguments);
    is_as_written(rt, case, before, &answer)
}

// Returns whether the file `AGAIN` has the same content as the file at this path. Removes `AGAIN`.
fn is_again(rt: &HostRuntime, case: &str, config: &str, path: &str) -> io::Result<bool> {
    let Some(expected) = bytes_of(rt, path)? else {
        return Ok(true);
    };
    let Some(found) = bytes_of(rt, AGAIN)? else {
        println!(rt; "{case}: a second run, on {config}, writes nothing")?;
        return Ok(false);
    };
    fs::remove_file(rt, AGAIN)?;
    if !is_same(rt, case, ".config", Some(&expected), Some(&found))? {
        println!(rt; "{case}: so a second run, on {config}, writes it")?;
        return Ok(false);
    }
    Ok(true)
}

// Runs on the same tree with this file, which the first run wrote.
fn holds_again(
    rt: &HostRuntime,
    case: &str,
    text: &str,
    config: &str,
    path: &str,
) -> io::Result<bool> {
    let arguments = Arguments::Given(rerun_arguments(rt.alloc(), text, config, AGAIN)?);
    let _ = run(rt, &arguments);
    is_again(rt, case, config, path)
}

// Runs on the same tree with the `.config` and with the minimal file, if the first run wrote them.
fn holds_on_outputs(
    rt: &HostRuntime,
    case: &str,
    text: &str,
    before: &[Entry],
) -> io::Result<bool> {
    let is_written = has_file(before, "expect/.config") && !has_file(before, "expect/status");
    if !is_written
        || text.lines().any(|line| {
            line == "--out" || line == "--explain" || line == "--how" || line == "--"
        })
    {
        return Ok(true);
    }
    let path = if has_file(before, "expect/again") {
        "expect/again"
    } else {
        ".config"
    };
    let mut holds = holds_again(rt, case, text, ".config", path)?;
    if has_file(before, "expect/defconfig") {
        holds &= holds_again(rt, case, text, "defconfig", ".config")?;
    }
    Ok(holds)
}

// Runs the case whose folder is the current one, and then runs on its output.
fn holds(rt: &HostRuntime, case: &str) -> io::Result<bool> {
    let text = fs::read_to_string(rt, "arguments")?;
    let before = entries_here(rt)?;
    Ok(
        holds_once(rt, case, text.as_str(), &before)?
            && holds_on_outputs(rt, case, text.as_str(), &before)?,
    )
}

/// Runs the case in its folder below `top`, and prints a line for it. Returns whether it holds; a case that cannot be
/// run does not.
pub(crate) fn run_case(rt: &HostRuntime, top: &str, case: &str) -> io::Result<bool> {
    let is_there = env::set_current_dir(rt, case).is_ok();
    let is_held = match holds(rt, case) {
        Ok(is_held) if is_there => is_held,
        _ => {
            println!(rt; "{case}: cannot be run")?;
            false
        }
    };
    env::set_current_dir(rt, top)?;
    if is_held {
        println!(rt; "{case}: ok")?;
    }
    Ok(is_held)
}
