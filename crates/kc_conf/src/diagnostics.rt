//! The diagnostics of a run, except for warnings.

ghost use Rattle.std.specs.Prelude.{◌≡◌, ◌++◌, ◌∷◌, [], map, OnOk};
ghost use Rattle.std.specs.List.{flat_map};
ghost use Rattle.kc_language.specs.Statements.{error_at, error_line};
ghost use Rattle.kc_language.specs.Statements.{run_error_text};
ghost use Rattle.kc_outcome.specs.Outcome.{lead, first_line, refusal_line, lines_text};
ghost use Rattle.kc_conf.specs.PartsOfOutcome.{too_long_line};
ghost use Rattle.kc_language.specs.Statements.{out_of_memory_line};
ghost use Rattle.kc_diagnostics.specs.RunErrors.{shown_run_error};
ghost use Rattle.kc_read.specs.RefusalView.{refusal_view};
ghost use Rattle.kc_conf.specs.PartRuns.{SaysLines};
ghost use Rattle.kc_conf.specs.Reads.{LastEndsLine, Says, SaysIf, failure_line, stop_of};
ghost use Rattle.kc_conf.specs.Endings.{Reports};
ghost use Rattle.kc_io.specs.Log.{TriesToSay};

use crate::reading::LongLine;
use crate::stop::Stop;
use itoa::Buffer;
use kc_diagnostics::{RunError, cause_parts, run_error_parts};
use kc_io::{Action, Device, Failure, Fault};
use kc_options::{Options, lead};
use kc_read::refusal::Refusal;
use std::alloc::{AllocError, Global};

// Reports whole lines, all parts in one call.
pub(crate) fn say_parts<D: Device>(device: &mut D, parts: &[&[u8]]) -> Result<(), Stop<'static>>
    requires { LastEndsLine parts.now }
    ensures { Says (flat_map (λ part. part.now) parts.now) result (D.log device.old) (D.log device.new) }
{
    match device.report(parts) {
        Ok(()) => Ok(()),
        Err(fault) => Err(Stop::Failed(Failure {
            action: Action::Report,
            name: "",
            fault,
        })),
    }
}

// Adds a line.
fn add_line(line: &[u8], text: &mut Vec<u8>) -> Result<(), AllocError>
    ensures { OnOk result (text.new.items ≡ text.old.items ++ lines_text (line.now ∷ [])) }
{
    text.extend_from_slice(line)?;
    text.push(b'\n')?;
    Ok(())
}

/// Adds these lines.
pub(crate) fn add_lines(lines: &[Vec<u8>], text: &mut Vec<u8>) -> Result<(), AllocError>
    ensures { OnOk result (text.new.items ≡ text.old.items ++ lines_text (map (λ line. line.items) lines.now)) }
{
    for line in lines {
        add_line(line, text)?;
    }
    Ok(())
}

/// Reports lines, if there are any, all in one call.
pub(crate) fn say_lines<D: Device>(
    alloc: Global,
    device: &mut D,
    lines: &[Vec<u8>],
) -> Result<(), Stop<'static>>
    ensures { SaysLines (lines_text (map (λ line. line.items) lines.now)) result (D.log device.old) (D.log device.new) }
{
    if lines.is_empty() {
        return Ok(());
    }
    let mut text = Vec::new(alloc);
    add_lines(lines, &mut text)?;
    say_parts(device, &[&text])
}

// Reports an error line with a location.
fn say_at<'a, D: Device>(
    device: &mut D,
    file: &'a [u8],
    line: u64,
    text: [&'a [u8]; 3],
) -> Result<(), Stop<'static>>
    ensures { Says (error_at file.now line (flat_map (λ part. part.now) text.entry)) result (D.log device.old) (D.log device.new) }
{
    let mut buffer = Buffer::new();
    let number = buffer.format(line).as_bytes();
    let [before, name, after] = text;
    say_parts(
        device,
        &[file, b":", number, b": error ", before, name, after, b"\n"],
    )
}

// Reports an error line without a location, after its lead.
fn say_behind<'a, D: Device>(
    device: &mut D,
    lead: [&'a [u8]; 2],
    text: [&'a [u8]; 3],
) -> Result<(), Stop<'static>>
    ensures { Says (flat_map (λ part. part.now) lead.entry ++ error_line (flat_map (λ part. part.now) text.entry)) result (D.log device.old) (D.log device.new) }
{
    let [config, colon] = lead;
    let [before, name, after] = text;
    say_parts(
        device,
        &[config, colon, b"error ", before, name, after, b"\n"],
    )
}

/// Reports why a tree is refused.
pub(crate) fn say_refusal<D: Device>(device: &mut D, refusal: &Refusal) -> Result<(), Stop<'static>>
    ensures { Says (refusal_line (refusal_view refusal.now)) result (D.log device.old) (D.log device.new) }
{
    let text = cause_parts(&refusal.cause);
    match &refusal.location {
        Some((file, line)) => say_at(device, file, u64::from(*line), text),
        None => say_behind(device, [b"", b""], text),
    }
}

/// Reports that a line of an input file is too long. The file's name already has the lead.
pub(crate) fn say_long_line<'a, D: Device>(
    device: &mut D,
    long: &LongLine<'a>,
) -> Result<(), Stop<'static>>
    ensures { Says (too_long_line (stop_of long.now)) result (D.log device.old) (D.log device.new) }
{
    let error: RunError<&'a [u8]> = RunError::LineTooLong;
    say_at(device, long.stream, long.number, run_error_parts(error))
}

/// Reports an error of a run.
pub(crate) fn say_error<'a, D: Device>(
    device: &mut D,
    options: &'a Options,
    error: RunError<&'a [u8]>,
) -> Result<(), Stop<'static>>
    ensures { Says (lead options.now ++ error_line (run_error_text (shown_run_error error.entry))) result (D.log device.old) (D.log device.new) }
{
    say_behind(device, lead(options), run_error_parts(error))
}

/// Returns the bytes before the first line feed.
pub(crate) fn first_line(name: &[u8]) -> &[u8]
    ensures { result.now ≡ first_line name.now }
{
    for i in 0..name.len() {
        if name[i] == b'\n' {
            return &name[..i];
        }
    }
    name
}

// Reports whole lines, all parts in one call. Returns whether the diagnostics took them.
fn tell<D: Device>(device: &mut D, parts: &[&[u8]]) -> bool
    requires { LastEndsLine parts.now }
    ensures { SaysIf (flat_map (λ part. part.now) parts.now) result (D.log device.old) (D.log device.new) }
{
    match device.report(parts) {
        Ok(()) => true,
        Err(_) => false,
    }
}

/// Reports whole lines, all parts in one call, unless the diagnostics fail.
pub(crate) fn try_to_say<D: Device>(device: &mut D, parts: &[&[u8]])
    requires { LastEndsLine parts.now }
    ensures { TriesToSay (flat_map (λ part. part.now) parts.now) (D.log device.old) (D.log device.new) }
{
    let _ = device.report(parts);
}

// Reports an error line without a location, unless the diagnostics fail.
fn try_to_say_text<'a, D: Device>(device: &mut D, text: [&'a [u8]; 3])
    ensures { TriesToSay (error_line (flat_map (λ part. part.now) text.entry)) (D.log device.old) (D.log device.new) }
{
    let [before, name, after] = text;
    try_to_say(device, &[b"error ", before, name, after, b"\n"]);
}

/// Reports an error of a run without a configuration, unless the diagnostics fail.
pub(crate) fn try_to_say_error<D: Device>(device: &mut D, error: RunError<&[u8]>)
    ensures { TriesToSay (error_line (run_error_text (shown_run_error error.entry))) (D.log device.old) (D.log device.new) }
{
    try_to_say_text(device, run_error_parts(error));
}

/// Reports that there was not enough memory for what the configurations share.
pub(crate) fn say_no_memory<D: Device>(device: &mut D)
    ensures { TriesToSay out_of_memory_line (D.log device.old) (D.log device.new) }
{
    try_to_say_error(device, RunError::Memory);
}

// Reports an error line without a location, after its lead. Returns whether the diagnostics took it.
fn tell_behind<'a, D: Device>(device: &mut D, lead: [&'a [u8]; 2], text: [&'a [u8]; 3]) -> bool
    ensures { SaysIf (flat_map (λ part. part.now) lead.entry ++ error_line (flat_map (λ part. part.now) text.entry)) result (D.log device.old) (D.log device.new) }
{
    let [config, colon] = lead;
    let [before, name, after] = text;
    tell(
        device,
        &[config, colon, b"error ", before, name, after, b"\n"],
    )
}

// Reports an error of a run. Returns whether the diagnostics took it.
fn tell_error<'a, D: Device>(
    device: &mut D,
    options: &'a Options,
    error: RunError<&'a [u8]>,
) -> bool
    ensures { SaysIf (lead options.now ++ error_line (run_error_text (shown_run_error error.entry))) result (D.log device.old) (D.log device.new) }
{
    tell_behind(device, lead(options), run_error_parts(error))
}

// Reports that a file could not be read or written, or that there was not enough memory for it.
fn tell_failure<'a, D: Device>(
    device: &mut D,
    options: &'a Options,
    error: RunError<&'a [u8]>,
    fault: Fault,
) -> bool
    ensures { SaysIf (lead options.now ++ failure_line fault (error_line (run_error_text (shown_run_error error.entry)))) result (D.log device.old) (D.log device.new) }
{
    match fault {
        Fault::Memory => tell_error(device, options, RunError::Memory),
        Fault::Refused => tell_error(device, options, error),
    }
}

/// Reports why a run stopped early, unless the diagnostics failed. Returns false if the diagnostics do not take the
/// line.
pub(crate) fn report<D: Device>(device: &mut D, options: &Options, stop: Stop<'_>) -> bool
    ensures { Reports options.now stop.entry result (D.log device.old) (D.log device.new) }
{
    let failure = match stop {
        Stop::OutOfMemory => return tell_error(device, options, RunError::Memory),
        Stop::Failed(failure) => failure,
    };
    let name = failure.name.as_bytes();
    match failure.action {
        Action::Report => true,
        Action::Open | Action::Read => {
            tell_failure(device, options, RunError::CannotRead(name), failure.fault)
        }
        Action::Miss
        | Action::Create(_)
        | Action::Write(_)
        | Action::Close(_)
        | Action::Move
        | Action::Clear => {
            tell_failure(device, options, RunError::CannotWrite(name), failure.fault)
        }
    }
}
