//! The lines of input files whose value is not allowed.
ghost use Rattle.std.specs.Prelude.{◌≡◌, IfOk, map, option_map, slice_set, Some};
ghost use Rattle.kc_language.specs.ConfigFile.{set_text};
ghost use Rattle.kc_input.specs.ConfigFileLine.{meaning_view};
ghost use Rattle.kc_input.specs.InputView.{kept_of};
ghost use Rattle.kc_input.specs.ShownView.{location_of, refused_of};

use crate::line::ConfigFileLine;
use crate::shown::{InputLine, RefusedLine};
use kc_expr::expression::SymId;
use std::alloc::{AllocError, Global};

/// A line whose value is not allowed, with a copy of the text right of its `=`.
#[derive(Drop)]
pub(crate) struct KeptLine<'a> {
    pub at: InputLine<'a>,
    pub value: Vec<u8>,
}

impl<'a> KeptLine<'a> {
    // The line with its text borrowed.
    pub(crate) fn shown(&self) -> RefusedLine<'_>
        ensures { refused_of result ≡ kept_of self.now }
    {
        RefusedLine {
            at: self.at,
            value: &self.value,
        }
    }
}

// The text right of the `=` of a set line.
fn set_text<'a>(line: ConfigFileLine<'a>) -> &'a [u8]
    ensures { result.now ≡ set_text (meaning_view line.entry) }
{
    match line {
        ConfigFileLine::Set(_, text) => text,
        ConfigFileLine::Nothing | ConfigFileLine::Unset(_) | ConfigFileLine::Malformed => b"",
    }
}

/// Returns the line with a copy of its text. Fails only if there is not enough memory.
pub(crate) fn kept_line<'a>(
    alloc: Global,
    at: InputLine<'a>,
    line: ConfigFileLine<'_>,
) -> Result<KeptLine<'a>, AllocError>
    ensures { IfOk result (λ kept. kept_of kept ≡ record { at = location_of at.entry; value = set_text (meaning_view line.entry) }) }
{
    let value = Vec::from_slice(alloc, set_text(line))?;
    Ok(KeptLine { at, value })
}

/// Stores the line in the symbol's place, if there is one.
pub(crate) fn keep_refused<'a>(kept: &mut Vec<Option<KeptLine<'a>>>, id: SymId, line: KeptLine<'a>)
    ensures { map (option_map kept_of) kept.new.items ≡ slice_set (map (option_map kept_of) kept.old.items) id.0 (Some (kept_of line.entry)) }
{
    if id.0 < kept.len() {
        kept[id.0] = Some(line);
    }
}
