//! Whether a line is allowed where it is.

ghost use Rattle.std.specs.Prelude.{◌≡◌, option_map};
ghost use Rattle.kc_language.specs.declared.diagnostics.Cause.TheVariants.{LeftOut};
ghost use Rattle.kc_language.specs.Statements as spec;
ghost use Rattle.kc_language.specs.Statements.{placement_cause};
ghost use Rattle.kc_read.specs.Progress.{context_in};
ghost use Rattle.kc_read.specs.LineReads.{cause_of, lexemes_from};

use crate::frame::Frame;
use crate::line_parts::begins_with;
use crate::progress::Progress;
use kc_diagnostics::Cause;
use kc_entries::statement::{Block, EntryKind, Keyword, LineFault};
use kc_expr::expression::SymbolType;
use kc_text::Token;

/// Why a line is not allowed here, if it is not.
pub(crate) fn placement_fault<'a>(
    frame: &Frame,
    progress: &Progress,
    word: &'a [u8],
    tokens: &[Token<'a>],
    keyword: Keyword,
) -> Option<LineFault<'a>>
    ensures { option_map cause_of result ≡ placement_cause (context_in frame.now progress.now) word.now (lexemes_from tokens.now 1) keyword }
{
    match keyword {
        Keyword::Config | Keyword::If | Keyword::Comment | Keyword::Source => None,
        Keyword::EndIf => closing_fault(Block::If, frame.own_block()),
        Keyword::EndMenu => closing_fault(Block::Menu, frame.own_block()),
        Keyword::EndChoice => closing_fault(Block::Choice, frame.own_block()),
        Keyword::Menu | Keyword::Choice | Keyword::MainMenu => unless_placed(!frame.is_in_choice()),
        Keyword::Type(symbol_type) => type_placement(frame.entry, symbol_type),
        Keyword::Prompt | Keyword::Default | Keyword::Help => unless_placed(matches!(
            frame.entry,
            EntryKind::Config | EntryKind::Choice
        )),
        Keyword::Def(_) | Keyword::Select | Keyword::Imply | Keyword::Range => unless_placed(
            matches!(frame.entry, EntryKind::Config),
        ),
        Keyword::Depends => unless_placed(!matches!(frame.entry, EntryKind::Nothing)),
        Keyword::Visible => unless_placed(matches!(frame.entry, EntryKind::Menu)),
        Keyword::Modules => unless_placed(
            matches!(frame.entry, EntryKind::Config) && progress.may_be_modules(),
        ),
        Keyword::Option => {
            if begins_with(tokens, 1, b"modules") {
                unless_placed(matches!(frame.entry, EntryKind::Config) && progress.may_be_modules())
            } else {
                unless_placed(matches!(frame.entry, EntryKind::Config))
            }
        }
        Keyword::LeftOut => Some(left_out(word)),
    }
}

/// The fault of an unsupported construct: a word, or what `word` names.
pub(crate) fn left_out(word: &[u8]) -> LineFault<'_>
    ensures { cause_of result ≡ LeftOut word.now }
{
    Cause::LeftOut(word)
}

// A misplaced line, unless the line is allowed here.
fn unless_placed<'a>(placed: bool) -> Option<LineFault<'a>>
    ensures { option_map cause_of result ≡ spec.unless_placed placed }
{
    if placed { None } else { Some(Cause::Misplaced) }
}

// The fault of a closing line, unless it closes the innermost open block of its file.
fn closing_fault<'a>(block: Block, own: Option<Block>) -> Option<LineFault<'a>>
    ensures { option_map cause_of result ≡ spec.closing_cause block own }
{
    match (block, own) {
        (Block::If, Some(Block::If)) => None,
        (Block::Menu, Some(Block::Menu)) => None,
        (Block::Choice, Some(Block::Choice)) => None,
        _ => Some(Cause::Block),
    }
}

// A type line is allowed in a `config` entry. In a choice only the type bool is allowed.
fn type_placement<'a>(entry: EntryKind, symbol_type: SymbolType) -> Option<LineFault<'a>>
    ensures { option_map cause_of result ≡ spec.type_placement entry symbol_type }
{
    match (entry, symbol_type) {
        (EntryKind::Config, _) => None,
        (EntryKind::Choice, SymbolType::Bool) => None,
        (EntryKind::Choice, SymbolType::Tristate) => Some(left_out(b"tristate choice")),
        _ => unless_placed(false),
    }
}
