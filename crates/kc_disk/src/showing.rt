//! How diagnostics are printed, as the arguments request.

use crate::arguments::Arguments;
use kc_display::Showing;
use kc_options::Options;
use kc_words::{Request, request_of};
use std::alloc::Global;

// How the options request it.
fn showing_by(options: &Options) -> Showing {
    Showing {
        quiet_tree: options.quiet_tree,
        hints: options.hints,
        differences: options.shows_difference,
    }
}

// Whether one of the arguments is an option that changes it.
fn asks(arguments: &[String]) -> bool {
    for argument in arguments {
        let argument = argument.as_str();
        if argument == "--hints" || argument == "--quiet-tree" || argument == "--diff" {
            return true;
        }
    }
    false
}

// The options in these arguments, if one of them changes it. For many configurations they are the shared options.
fn options_given(alloc: Global, arguments: &[String]) -> Option<Options> {
    if !asks(arguments) {
        return None;
    }
    match request_of(alloc, arguments) {
        Ok(Request::One(options)) => Some(options),
        Ok(Request::Each(each)) => Some(each.options),
        Ok(Request::Dead(dead)) => Some(dead.options),
        Ok(Request::How(how)) => Some(how.options),
        Ok(Request::HowEach(how)) => Some(how.each.options),
        Err(_) => None,
    }
}

/// The options in the arguments, if one of them changes how the run's diagnostics are printed.
pub(crate) fn shown_options(alloc: Global, arguments: &Arguments) -> Option<Options> {
    match arguments {
        Arguments::Given(given) => options_given(alloc, given),
        Arguments::Unread(_) => None,
    }
}

/// How the diagnostics of a run with these options are printed: unchanged if there are none.
pub(crate) fn showing_of(options: &Option<Options>) -> Showing {
    match options {
        Some(options) => showing_by(options),
        None => Showing::PLAIN,
    }
}
