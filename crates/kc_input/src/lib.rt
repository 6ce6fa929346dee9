#![tactic(auto)]
//! The reader of input files: what the `.config` and the fragments set for a tree.
//!
//! - [`reader`]: takes the input files in chunks of any size and gives the user values and the warnings.
//! - [`line`] and [`value`]: the meaning of one line, and the value on the right of its `=`.
//! - [`effect`]: what a line does for a tree: nothing, a warning, or an assignment.
//! - [`user_input`]: all that the input files gave.
//! - [`shown`]: values and locations, as warnings print them.
//! - [`fault`]: why reading stopped.
//! - [`prefix`]: the prefix of each name, `CONFIG_` by default.
//! - [`text`]: a text that grows part by part.
//! - [`laws`]: laws of reading, and of reading written lines again.

pub mod effect;
pub mod fault;
mod gone;
pub mod laws;
pub mod line;
mod line_buffer;
pub mod prefix;
pub mod reader;
mod refused;
pub mod shown;
mod step;
pub mod text;
pub mod user_input;
pub mod value;
