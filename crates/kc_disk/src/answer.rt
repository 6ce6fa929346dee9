//! Does what arguments request.
ghost use Rattle.std.specs.Prelude.{◌≡◌};
ghost use Rattle.kc_disk.specs.Program.{AnswersArguments, EndsAsked, KconfEnds, EndsUsage, SaysUsage};
ghost use Rattle.kc_words.specs.declared.options.Request.TheVariants.{How, One};

use crate::arguments::Arguments;
use crate::asking::ask;
use crate::each::{ask_each_in_folder, run_each_in_folder};
use crate::including::{ask_including, run_including};
use crate::usage::say_usage;
use kc_conf::{AcceptedTree, Options, Status, list_dead_in_folder, run_in_folder};
use kc_io::Device;
use kc_load::Folder;
use kc_words::{HowQuestion, Request, UsageError, request_of};

// Prints help or the version to standard output, or reports the error. Returns `Faulted` if standard output does not
// take all of it.
fn print_usage<D: Device>(rt: &HostRuntime, device: &mut D, usage: &UsageError) -> Status
    ensures status { EndsUsage usage.now result }
    ensures says { SaysUsage usage.now (D.log device.old) (D.log device.new) }
{
    match usage {
        UsageError::Help(_) | UsageError::Version => {
            if rt.stdout().write_all(usage.text().as_bytes()).is_ok() {
                Status::Done
            } else {
                Status::Faulted
            }
        }
        UsageError::Bad(_) | UsageError::Memory => say_usage(device, usage),
    }
}

// Runs with these options.
fn answer_one<F: Folder, D: Device>(
    rt: &HostRuntime,
    options: Options,
    folder: &mut F,
    device: &mut D,
    kept: &mut Option<AcceptedTree>,
) -> Status
    ensures { EndsAsked (One options) (F.state folder.old) (F.state folder.new) (D.log device.old) (D.log device.new) result }
{
    if options.include.is_some() {
        return run_including(rt.alloc(), folder, options, device, kept);
    }
    run_in_folder(rt.alloc(), folder, &options, device, kept)
}

// Tells what must be set.
fn answer_how<F: Folder, D: Device>(
    rt: &HostRuntime,
    how: HowQuestion,
    folder: &mut F,
    device: &mut D,
    kept: &mut Option<AcceptedTree>,
) -> Status
    ensures { EndsAsked (How how) (F.state folder.old) (F.state folder.new) (D.log device.old) (D.log device.new) result }
{
    if how.options.include.is_some() {
        return ask_including(rt.alloc(), folder, how, device, kept);
    }
    ask(rt.alloc(), folder, &how, device, kept)
}

// Does what the arguments request.
fn answer_given<F: Folder, D: Device>(
    rt: &HostRuntime,
    arguments: &[String],
    folder: &mut F,
    device: &mut D,
    kept: &mut Option<AcceptedTree>,
) -> Status
    ensures { AnswersArguments arguments.now (F.state folder.old) (F.state folder.new) (D.log device.old) (D.log device.new) result }
{
    match request_of(rt.alloc(), arguments) {
        Ok(Request::One(options)) => answer_one(rt, options, folder, device, kept),
        Ok(Request::Each(each)) => run_each_in_folder(rt.alloc(), folder, &each, device, kept),
        Ok(Request::Dead(dead)) => {
            let file = dead.file.as_str();
            list_dead_in_folder(rt.alloc(), folder, &dead.options, file, device, kept)
        }
        Ok(Request::How(how)) => answer_how(rt, how, folder, device, kept),
        Ok(Request::HowEach(how)) => ask_each_in_folder(rt.alloc(), folder, &how, device, kept),
        Err(usage) => print_usage(rt, device, &usage),
    }
}

/// Does what the arguments request, or reports why they could not be read.
pub(crate) fn answer<F: Folder, D: Device>(
    rt: &HostRuntime,
    arguments: &Arguments,
    folder: &mut F,
    device: &mut D,
    kept: &mut Option<AcceptedTree>,
) -> Status
    ensures { KconfEnds arguments.now (F.state folder.old) (F.state folder.new) (D.log device.old) (D.log device.new) result }
{
    match arguments {
        Arguments::Given(given) => answer_given(rt, given, folder, device, kept),
        Arguments::Unread(usage) => print_usage(rt, device, usage),
    }
}
