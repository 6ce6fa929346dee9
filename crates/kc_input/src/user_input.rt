//! What the user's input files give.
ghost use Rattle.std.specs.Prelude.{◌≡◌, ◌++◌, [], length, map, replicate, slice_index_or, false, None, Some, IfOk, OnOk, OnErr, if◌then◌else◌, option_map};
ghost use Rattle.std.specs.Option.{option_map_or};
ghost use Rattle.kc_language.specs.ConfigFile.{is_reported, no_input, plain_line, plain_location, plain_refused};
ghost use Rattle.kc_diagnostics.specs.Warnings.{shown_warning};
ghost use Rattle.kc_input.specs.ConfigFileLine.{meaning_view};
ghost use Rattle.kc_input.specs.LineSteps.{with_line};
ghost use Rattle.kc_input.specs.ShownView.{location_of, refused_of};

use crate::gone::{GoneLines, joined, keep_line};
use crate::line::ConfigFileLine;
use crate::prefix::Prefix;
use crate::refused::KeptLine;
use crate::shown::{InputLine, RefusedLine};
use kc_diagnostics::Warning;
use kc_expr::expression::SymId;
use kc_tree::tree::Tree;
use kc_user::user::{User, empty_places};
use std::alloc::{AllocError, Global};
use std::marker::Model;

/// What the lines of a user's input files give: the user values; and whether every line was taken as written. On
/// request, for each symbol the line that gave its value last, and the last line whose value was not allowed, with its
/// text. On request, the lines that name no symbol. Also whether unset lines without effect are reported, and the lead
/// of fragment names. (Our own.)
#[derive(Drop)]
pub struct UserInput<'a> {
    pub(crate) user: User,
    pub(crate) lines: Vec<Option<InputLine<'a>>>,
    pub(crate) refused: Vec<Option<KeptLine<'a>>>,
    pub(crate) all_taken: bool,
    pub(crate) gone: Option<GoneLines>,
    pub(crate) asks_unset: bool,
    pub(crate) lead: Vec<u8>,
}

impl<'a> Model for UserInput<'a> {
    ghost use Rattle.kc_language.specs.ConfigFile.{UserInput};
    ghost use Rattle.kc_input.specs.InputView.{input_of};

    ghost Value = { UserInput };

    ghost view = { input_of };
}

// No line for each symbol of the tree, or an empty list if lines are not kept.
fn no_lines<T: Drop>(
    alloc: Global,
    tree: &Tree,
    keeps_lines: bool,
) -> Result<Vec<Option<T>>, AllocError>
    ensures { IfOk result (λ lines. lines.items ≡ (if keeps_lines then replicate (length tree.now.symbols) None else [])) }
{
    if !keeps_lines {
        return Ok(Vec::new(alloc));
    }
    empty_places(alloc, tree.name_count())
}

impl<'a> UserInput<'a> {
    /// Returns an empty input. With `keeps_lines` it keeps, for each symbol, the line of its value, and the last line
    /// whose value was not allowed, with its text. Fails only if there is not enough memory.
    pub fn new(alloc: Global, tree: &Tree, keeps_lines: bool) -> Result<UserInput<'a>, AllocError>
        ensures { IfOk result (λ input. input ≡ no_input keeps_lines tree.now) }
    {
        let user = User::new(alloc, tree)?;
        let lines = no_lines(alloc, tree, keeps_lines)?;
        let refused = no_lines(alloc, tree, keeps_lines)?;
        Ok(UserInput {
            user,
            lines,
            refused,
            all_taken: true,
            gone: None,
            asks_unset: false,
            lead: Vec::new(alloc),
        })
    }

    /// The user's values.
    pub fn user(&self) -> &User
        ensures { result.now ≡ self.now.places }
    {
        &self.user
    }

    /// The line that gave the symbol its value last, if such lines are kept.
    pub fn line(&self, id: SymId) -> Option<InputLine<'a>>
        ensures { option_map location_of result ≡ slice_index_or self.now.lines id.0 None }
    {
        match self.lines.get(id.0) {
            Some(line) => *line,
            None => None,
        }
    }

    // The last line whose value for the symbol was not allowed (K8), with its text, if such lines are kept.
    fn refused_line(&self, id: SymId) -> Option<RefusedLine<'_>>
        ensures { option_map refused_of result ≡ slice_index_or self.now.refused id.0 None }
    {
        match self.refused.get(id.0) {
            Some(Some(line)) => Some(line.shown()),
            Some(None) | None => None,
        }
    }

    // The line without the lead.
    fn plain(&self, line: Option<InputLine<'a>>) -> Option<InputLine<'a>>
        ensures { option_map location_of result ≡ option_map (plain_location self.now.lead) (option_map location_of line.entry) }
    {
        match line {
            Some(line) => Some(line.without(&self.lead)),
            None => None,
        }
    }

    /// The line that gave the symbol its value last, without the lead, if such lines are kept.
    pub fn plain_line(&self, id: SymId) -> Option<InputLine<'a>>
        ensures { option_map location_of result ≡ plain_line self.now self.now.lines id }
    {
        self.plain(self.line(id))
    }

    /// The last line whose value for the symbol was not allowed (K8), without the lead and with its text, if such lines
    /// are kept.
    pub fn plain_refused_line(&self, id: SymId) -> Option<RefusedLine<'_>>
        ensures { option_map refused_of result ≡ plain_refused self.now id }
    {
        match self.refused_line(id) {
            Some(line) => Some(RefusedLine {
                at: line.at.without(&self.lead),
                value: line.value,
            }),
            None => None,
        }
    }

    /// Sets the lead, with which fragment names start, from now on.
    pub fn lead_with(&mut self, lead: Vec<u8>)
        ensures { self.new ≡ record self.old { lead = lead.items } }
    {
        self.lead = lead;
    }

    /// Sets whether each unset line of a string, int or hex symbol is reported (K16) from now on.
    pub fn ask_unset(&mut self, asks_unset: bool)
        ensures { self.new ≡ record self.old { asks_unset = asks_unset } }
    {
        self.asks_unset = asks_unset;
    }

    // Whether a warning of a line is reported.
    pub(crate) fn reports(&self, line_warning: &Warning<&[u8]>) -> bool
        ensures { result ≡ is_reported self.now.asks_unset (shown_warning line_warning.now) }
    {
        match line_warning {
            Warning::TextUnset(_) => self.asks_unset,
            _ => true,
        }
    }

    /// Whether every line was taken as written: none had a reported warning, and none gave a symbol another
    /// value.
    pub fn all_taken(&self) -> bool
        ensures { result ≡ self.now.all_taken }
    {
        self.all_taken
    }

    /// Keeps each line that names no symbol (K7) from now on, without earlier ones.
    pub fn keep_gone(&mut self, alloc: Global)
        ensures { self.new ≡ record self.old { gone = Some ([], []) } }
    {
        self.gone = Some(GoneLines {
            on: Vec::new(alloc),
            off: Vec::new(alloc),
        });
    }

    /// Returns the lines that name no symbol, if such lines are kept, as they were read, each with a line feed. Lines
    /// that are on come first, then the others, which are unset lines or have the value n. Fails only if there is not
    /// enough memory.
    pub fn gone_text(&self, alloc: Global) -> Result<Vec<u8>, AllocError>
        ensures { IfOk result (λ text. text.items ≡ option_map_or (λ told. told.0 ++ told.1) self.now.gone []) }
    {
        match &self.gone {
            None => Ok(Vec::new(alloc)),
            Some(gone) => joined(alloc, gone),
        }
    }

    // Notes that a line was not taken as written, and keeps it if it names no symbol and such lines are kept. Fails
    // only if there is not enough memory; then it changes nothing.
    pub(crate) fn leave_out(
        &mut self,
        alloc: Global,
        prefix: &Prefix,
        line: ConfigFileLine<'_>,
        is_gone: bool,
    ) -> Result<(), AllocError>
        ensures noted { OnOk result (self.new ≡ record self.old {
          all_taken = false;
          gone = if is_gone then option_map (with_line prefix.now (meaning_view line.entry)) self.old.gone else self.old.gone;
        }) }
        ensures nothing { OnErr result (self.new ≡ self.old) }
    {
        if is_gone {
            keep_line(alloc, prefix, line, &mut self.gone)?;
        }
        self.all_taken = false;
        Ok(())
    }
}
