//! Reading a `.config`, values, and the three files.
ghost use Rattle.std.specs.Prelude.{◌≡◌};
ghost use Rattle.kc_language.specs.ConfigFile.{ArePlacesOf};
ghost use Rattle.kc_solve.specs.Orders.{IsOrderOf};

use crate::end::{CallEnd, done, refused};
use crate::trees::TreeCall;
use kc_config_file::config::config_text;
use kc_config_file::header::{header_text, minimal_text};
use kc_expr::expression::{SymId, Tri};
use kc_expr::values::Values;
use kc_input::fault::InputFault;
use kc_input::prefix::Prefix;
use kc_input::reader::InputReader;
use kc_input::user_input::UserInput;
use kc_solve::evaluation_order::EvaluationOrder;
use kc_solve::solve::solve;
use kc_solve::solved::Solved;
use kc_tree::laid_tree::LaidTree;
use kc_tree::tree::Tree;
use kc_user::user::User;
use kc_user::value::UserValue;
use std::alloc::{AllocError, Global};

const A: SymId = SymId(0);

const B: SymId = SymId(1);

const N: SymId = SymId(2);

const SETTINGS: &[u8] = b"CONFIG_Q=y\n\
    CONFIG_B=\"a text \\\"in quotes\\\"\"\n\
    # CONFIG_A is not set\n\
    CONFIG_N=7";

const TEXT: &[u8] = b"a text \"in quotes\"";

// The initial capacity, which is enough for all warnings: so a warning needs no allocation.
const ROOM: usize = 1_000;

const UNKNOWN: &[u8] = b".config:1: warning K7: unknown symbol Q\n";

// The prefix `CONFIG_`.
fn prefix_of(alloc: Global) -> Result<Prefix, AllocError> {
    match Prefix::new(alloc, b"CONFIG_", false)? {
        Some(prefix) => Ok(prefix),
        None => Err(AllocError),
    }
}

// The user value of the symbol.
fn given(user: &User, id: SymId) -> Option<&UserValue> {
    user.symbols().get(id.0)
}

// The symbol has no user value, or n.
fn is_empty_or_n(user: &User, id: SymId, is_empty: bool) -> bool {
    match given(user, id) {
        None => is_empty,
        Some(UserValue::Tri(Tri::N)) => !is_empty,
        Some(_) => false,
    }
}

// The symbol has no user value, or `TEXT`.
fn is_empty_or_text(user: &User, id: SymId, is_empty: bool) -> bool {
    match given(user, id) {
        None => is_empty,
        Some(UserValue::Text(text)) => !is_empty && text.as_slice() == TEXT,
        Some(_) => false,
    }
}

// The user values and the warnings are those after this many lines of `SETTINGS`.
fn stands_after(user: &User, diagnostics: &[u8], lines: u8) -> bool {
    let warned = if lines > 0 { UNKNOWN } else { b"".as_slice() };
    diagnostics == warned
        && is_empty_or_text(user, B, lines < 2)
        && is_empty_or_n(user, A, lines < 3)
        && given(user, N).is_none()
}

// The number of lines of `SETTINGS` after which the user values are as they are.
fn lines_read(user: &User, diagnostics: &[u8]) -> Option<u8> {
    (0u8..4).find(|lines| stands_after(user, diagnostics, *lines))
}

// A reader, its user values, and its warnings. Its calls have no contract of their own: the tests check their results.
#[derive(Drop)]
struct Fed<'a> {
    reader: InputReader<'a>,
    user: UserInput<'a>,
    diagnostics: Vec<u8>,
    ghost places: { ArePlacesOf reader.tree user.places },
}

impl<'a> Fed<'a> {
    fn new(alloc: Global, tree: &'a Tree, prefix: &'a Prefix) -> Result<Fed<'a>, AllocError> {
        Ok(Fed {
            reader: InputReader::new(alloc, tree, prefix, b".config"),
            user: UserInput::new(alloc, tree, true)?,
            diagnostics: Vec::with_capacity(alloc, ROOM)?,
        })
    }

    fn feed(&mut self, piece: &[u8]) -> Result<(), InputFault> {
        self.reader
            .feed(piece, &mut self.user, &mut self.diagnostics)
    }

    fn finish(&mut self) -> Result<(), InputFault> {
        self.reader.finish(&mut self.user, &mut self.diagnostics)
    }

    // The result of `feed`, for a warning, two user values and an unfinished line.
    fn end(&mut self) -> CallEnd {
        match self.feed(SETTINGS) {
            Ok(()) => {
                done(
                    self.reader.pending() == 10
                        && stands_after(self.user.user(), &self.diagnostics, 3),
                )
            }
            // Each later call returns the same and changes nothing.
            Err(fault) => {
                let before = lines_read(self.user.user(), &self.diagnostics);
                let again = self.feed(b"\n");
                let ends = self.finish();
                let is_kept = again == Err(InputFault::Memory) && ends == Err(InputFault::Memory);
                let stands = before.is_some()
                    && before == lines_read(self.user.user(), &self.diagnostics);
                refused(fault == InputFault::Memory && is_kept && stands)
            }
        }
    }
}

/// `feed`.
pub(crate) struct Feed;

impl TreeCall for Feed {
    fn end(&self, alloc: Global, tree: &Tree) -> Result<CallEnd, AllocError> {
        let prefix = prefix_of(alloc)?;
        let mut fed = Fed::new(alloc, tree, &prefix)?;
        Ok(fed.end())
    }
}

// Reads all lines of `SETTINGS` into the user values. Returns whether that succeeded.
fn read_into<'a>(
    alloc: Global,
    tree: &'a Tree,
    prefix: &'a Prefix,
    user: &mut UserInput<'a>,
    diagnostics: &mut Vec<u8>,
) -> bool
    requires { ArePlacesOf tree.now user.old.places }
    ensures { ArePlacesOf tree.now user.new.places }
{
    let mut reader = InputReader::new(alloc, tree, prefix, b".config");
    reader.feed(SETTINGS, user, diagnostics).is_ok() && reader.finish(user, diagnostics).is_ok()
}

// The same, with its own text for the warnings.
fn fill<'a>(
    alloc: Global,
    tree: &'a Tree,
    prefix: &'a Prefix,
    user: &mut UserInput<'a>,
) -> Result<bool, AllocError>
    requires { ArePlacesOf tree.now user.old.places }
    ensures { ArePlacesOf tree.now user.new.places }
{
    let mut diagnostics = Vec::with_capacity(alloc, ROOM)?;
    Ok(read_into(alloc, tree, prefix, user, &mut diagnostics))
}

// A is n, B is the text, and N is seven.
fn has_values(solved: &Solved<'_, '_>) -> bool {
    solved.tri(A) == Tri::N && solved.text(B) == TEXT && solved.text(N) == b"7".as_slice()
}

const CONFIG: &[u8] = b"#\n\
    # Automatically generated file; DO NOT EDIT.\n\
    # Main menu\n\
    #\n\
    # CONFIG_A is not set\n\
    CONFIG_B=\"a text \\\"in quotes\\\"\"\n\
    CONFIG_N=7\n\
    \n\
    #\n\
    # m\n\
    #\n\
    # end of m\n";

const HEADER: &[u8] = b"/*\n \
    * Automatically generated file; DO NOT EDIT.\n \
    * Main menu\n \
    */\n\
    #define CONFIG_B \"a text \\\"in quotes\\\"\"\n\
    #define CONFIG_N 7\n";

const MINIMAL: &[u8] = b"# CONFIG_A is not set\n\
    CONFIG_B=\"a text \\\"in quotes\\\"\"\n\
    CONFIG_N=7\n";

/// One of the three files.
#[derive(Clone, Copy)]
pub(crate) enum Output {
    /// The full `.config`.
    Config,
    /// The header.
    Header,
    /// The minimal file.
    Minimal,
}

// The result of formatting a text, with solved values.
fn end_of_text(alloc: Global, solved: &Solved<'_, '_>, prefix: &Prefix, output: Output) -> CallEnd {
    let (made, text) = match output {
        Output::Config => (config_text(alloc, solved, prefix), CONFIG),
        Output::Header => (header_text(alloc, solved, prefix), HEADER),
        Output::Minimal => (minimal_text(alloc, solved, prefix), MINIMAL),
    };
    match made {
        Ok(made) => done(made.as_slice() == text),
        Err(AllocError) => CallEnd::Refused,
    }
}

/// A call that works on values.
#[derive(Clone, Copy)]
pub(crate) enum Work {
    /// `solve` itself.
    Solve,
    /// The text of one of the files.
    Text(Output),
}

// The result of the work for this order.
fn end_in_order(
    alloc: Global,
    laid: &LaidTree<'_>,
    order: &EvaluationOrder,
    user: &User,
    prefix: &Prefix,
    work: Work,
) -> Result<CallEnd, AllocError>
    requires order { IsOrderOf laid.now order.now }
    requires user { ArePlacesOf laid.now.tree.now user.now }
{
    match (solve(alloc, laid, order, user), work) {
        (Ok(solved), Work::Solve) => Ok(done(has_values(&solved))),
        (Ok(solved), Work::Text(output)) => Ok(end_of_text(alloc, &solved, prefix, output)),
        (Err(_), Work::Solve) => Ok(CallEnd::Refused),
        (Err(_), Work::Text(_)) => Err(AllocError),
    }
}

// The result for these user values.
fn end_over(
    alloc: Global,
    tree: &Tree,
    user: &User,
    prefix: &Prefix,
    work: Work,
) -> Result<CallEnd, AllocError>
    requires { ArePlacesOf tree.now user.now }
{
    let laid = tree.laid();
    match EvaluationOrder::of(alloc, &laid) {
        Ok(order) => end_in_order(alloc, &laid, &order, user, prefix, work),
        Err(_) => Err(AllocError),
    }
}

// The result after reading `SETTINGS`.
fn end_with(
    alloc: Global,
    tree: &Tree,
    prefix: &Prefix,
    work: Work,
) -> Result<CallEnd, AllocError> {
    let mut user = UserInput::new(alloc, tree, true)?;
    match fill(alloc, tree, prefix, &mut user) {
        Ok(true) => end_over(alloc, tree, user.user(), prefix, work),
        _ => Err(AllocError),
    }
}

impl TreeCall for Work {
    fn end(&self, alloc: Global, tree: &Tree) -> Result<CallEnd, AllocError> {
        let prefix = prefix_of(alloc)?;
        end_with(alloc, tree, &prefix, *self)
    }
}
