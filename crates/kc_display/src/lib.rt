#![tactic(auto)]
//! How diagnostics are printed.
//!
//! - [`shown`]: diagnostics with hints, and without the warnings about the tree, as a [`Showing`] specifies. A [`Code`]
//!   has a hint.
//! - [`add_shown`]: the same for one line, whose hint starts with a fact. [`find_code`] finds its code, and
//!   [`lines_of`] the lines of a text.
//! - [`difference`]: the difference of a file and the text that it should hold, in the format of `diff -u`.
//! - [`edits_of`]: the lines that are kept, removed and added. An [`Edit`] is a line with its [`Mark`].

mod code;
mod display;
mod edits;
mod page;
mod unified;

pub use code::Code;
pub use display::{Showing, add_shown, find_code, shown};
pub use edits::{Edit, Mark, edits_of, lines_of};
pub use unified::difference;
