//! Reads the statement of a line.

ghost use Rattle.std.specs.Prelude.{◌≡◌, ◌≤◌, ℕ, length, IfOk, IfErr, Ok, Some, Err, List, Option};
ghost use Rattle.kc_expr.specs.Names.{Extends};
ghost use Rattle.kc_language.specs.Statements as spec;
ghost use Rattle.kc_language.specs.Statements.{finish, ReadsLine, ReadsRest, ReadsWhole, ReadsValue, ReadsPrompt, ReadsSource, ReadsTextLine, Named, SourceLine, IfLine, CommentLine, DefaultLine, PromptLine, SelectLine, ImplyLine, MenuLine, MainMenuLine, DefLine, TypeLine};
ghost use Rattle.kc_entries.specs.PartsOfStatements.{ReadsType, ReadsTarget, ReadsConfig};
ghost use Rattle.kc_entries.specs.PartsOfStatements.{ReadsRange, ReadsDepends, ReadsVisible};
ghost use Rattle.kc_read.specs.LineReads.{IsFault, IsRead, IsMade, lexemes_from};
ghost use Rattle.kc_read.specs.Progress.{context_in};
ghost use Rattle.kc_entries.specs.PartsOfStatements.{choice_line as spec_choice_line};

use crate::constants::Constants;
use crate::frame::Frame;
use crate::keywords::keyword_of;
use crate::line_parts::{
    begins_with, condition, end, is_good_name, is_pattern, name_number, next, operand_at, raw_text,
    syntax, target_at, text_at, value_at, whole, word_at,
};
use crate::placement::{left_out, placement_fault};
use crate::progress::Progress;
use kc_diagnostics::Cause;
use kc_entries::statement::{
    Attribute, Head, Keyword, LineFault, Prompt, Statement, SymbolDefault, SymbolRange,
};
use kc_expr::expression::{SymId, SymbolType};
use kc_expr::names::Names;
use kc_text::Token;
use std::alloc::Global;

/// The position of the next line: in an open file, after what was read so far.
#[derive(Drop)]
pub(crate) struct Position<'p> {
    pub alloc: Global,
    pub constants: &'p Constants,
    pub frame: &'p Frame,
    pub progress: &'p Progress,
    pub is_flat: bool,
}

fn config_line<'a>(tokens: &[Token<'a>], names: &mut Names) -> Result<Statement, LineFault<'a>>
    ensures read { IsRead names.old names.new (ReadsConfig (lexemes_from tokens.now 1)) result }
    ensures names { Extends names.old names.new }
{
    let word = word_at(tokens, 1)?;
    end(tokens, 2)?;
    if !is_good_name(word) {
        return Err(Cause::BadName(word));
    }
    let id = name_number(names, word)?;
    Ok(Statement::Head(Head::Config(id)))
}

fn if_line<'a>(
    alloc: Global,
    tokens: &[Token<'a>],
    names: &mut Names,
) -> Result<Statement, LineFault<'a>>
    requires { 1 ≤ length tokens.now }
    ensures read { IsRead names.old names.new (ReadsWhole IfLine (lexemes_from tokens.now 1)) result }
    ensures names { Extends names.old names.new }
{
    let when = whole(alloc, tokens, 1, names)?;
    Ok(Statement::Head(Head::If(when)))
}

fn comment_line<'a>(alloc: Global, tokens: &[Token<'a>]) -> Result<Statement, LineFault<'a>>
    ensures { (names : List (List ℕ)) → IsRead names names (ReadsTextLine CommentLine (lexemes_from tokens.now 1)) result }
{
    let text = text_at(alloc, tokens, 1)?;
    end(tokens, 2)?;
    Ok(Statement::Head(Head::Comment(Box::new(alloc, text)?)))
}

/// The name in a `source` line.
pub(crate) fn source_name<'a>(alloc: Global, tokens: &[Token<'a>]) -> Result<Vec<u8>, LineFault<'a>>
    ensures name { IfOk result (λ name. ReadsSource (lexemes_from tokens.now 1) (Ok (SourceLine name.items))) }
    ensures fault { IfErr result (λ f. IsFault f (λ c. ReadsSource (lexemes_from tokens.now 1) (Err c))) }
{
    let name = text_at(alloc, tokens, 1)?;
    if is_pattern(&name) {
        return Err(left_out(b"pattern"));
    }
    end(tokens, 2)?;
    Ok(name)
}

fn source_line<'a>(alloc: Global, tokens: &[Token<'a>]) -> Result<Statement, LineFault<'a>>
    ensures { (names : List (List ℕ)) → IsRead names names (ReadsSource (lexemes_from tokens.now 1)) result }
{
    let name = source_name(alloc, tokens)?;
    Ok(Statement::Source(name))
}

fn default_line<'a>(
    alloc: Global,
    constants: &Constants,
    tokens: &[Token<'a>],
    names: &mut Names,
) -> Result<Statement, LineFault<'a>>
    requires { 1 ≤ length tokens.now }
    ensures read { IsRead names.old names.new (ReadsValue DefaultLine (lexemes_from tokens.now 1)) result }
    ensures names { Extends names.old names.new }
{
    let (value, after) = value_at(alloc, constants, tokens, 1, names)?;
    let when = condition(alloc, tokens, after, names)?;
    Ok(Statement::Attribute(Attribute::Default(SymbolDefault { value, when })))
}

fn prompt_line<'a>(
    alloc: Global,
    tokens: &[Token<'a>],
    names: &mut Names,
) -> Result<Statement, LineFault<'a>>
    ensures read { IsRead names.old names.new (ReadsPrompt PromptLine (lexemes_from tokens.now 1)) result }
    ensures names { Extends names.old names.new }
{
    // The text is not kept.
    raw_text(tokens, 1)?;
    let when = condition(alloc, tokens, 2, names)?;
    Ok(Statement::Attribute(Attribute::Prompt(Prompt { when })))
}

fn depends_line<'a>(
    alloc: Global,
    tokens: &[Token<'a>],
    names: &mut Names,
) -> Result<Statement, LineFault<'a>>
    ensures read { IsRead names.old names.new (ReadsDepends (lexemes_from tokens.now 1)) result }
    ensures names { Extends names.old names.new }
{
    if !begins_with(tokens, 1, b"on") {
        return Err(syntax());
    }
    let when = whole(alloc, tokens, 2, names)?;
    Ok(Statement::Attribute(Attribute::Depends(when)))
}

fn end_line<'a>(tokens: &[Token<'a>], statement: Statement) -> Result<Statement, LineFault<'a>>
    ensures { (x : Named) (names : List (List ℕ)) → IsMade names names statement x → IsRead names names (λ r. r ≡ finish x (lexemes_from tokens.now 1)) result }
{
    // The call drops the statement once, while `?` would expand the drop of every kind of statement.
    if let Err(fault) = end(tokens, 1) {
        drop(statement);
        return Err(fault);
    }
    Ok(statement)
}

fn choice_line<'a>(tokens: &[Token<'a>]) -> Result<Statement, LineFault<'a>>
    ensures { (names : List (List ℕ)) → IsRead names names (λ r. r ≡ spec_choice_line (lexemes_from tokens.now 1)) result }
{
    match next(tokens, 1) {
        Some(_) => Err(left_out(b"named choice")),
        None => Ok(Statement::Head(Head::Choice)),
    }
}

fn select_line<'a>(
    alloc: Global,
    tokens: &[Token<'a>],
    names: &mut Names,
) -> Result<Statement, LineFault<'a>>
    ensures read { IsRead names.old names.new (ReadsTarget SelectLine (lexemes_from tokens.now 1)) result }
    ensures names { Extends names.old names.new }
{
    let word = target_at(tokens, 1)?;
    let id = name_number(names, word)?;
    let when = condition(alloc, tokens, 2, names)?;
    Ok(Statement::Attribute(Attribute::Select(id, when)))
}

fn range_line<'a>(
    alloc: Global,
    tokens: &[Token<'a>],
    names: &mut Names,
) -> Result<Statement, LineFault<'a>>
    ensures read { IsRead names.old names.new (ReadsRange (lexemes_from tokens.now 1)) result }
    ensures names { Extends names.old names.new }
{
    let low = operand_at(alloc, tokens, 1, names)?;
    let high = operand_at(alloc, tokens, 2, names)?;
    let when = condition(alloc, tokens, 3, names)?;
    let range = Box::new(alloc, SymbolRange { low, high, when })?;
    Ok(Statement::Attribute(Attribute::Range(range)))
}

fn option_line<'a>(tokens: &[Token<'a>]) -> Result<Statement, LineFault<'a>>
    ensures { (names : List (List ℕ)) → IsRead names names (λ r. r ≡ spec.option_line (lexemes_from tokens.now 1)) result }
{
    if begins_with(tokens, 1, b"modules") {
        end(tokens, 2)?;
        return Ok(Statement::Attribute(Attribute::Modules));
    }
    if begins_with(tokens, 1, b"allnoconfig_y") {
        end(tokens, 2)?;
        return Ok(Statement::Attribute(Attribute::Ignored));
    }
    if begins_with(tokens, 1, b"env") {
        return Err(left_out(b"option env"));
    }
    if begins_with(tokens, 1, b"defconfig_list") {
        return Err(left_out(b"option defconfig_list"));
    }
    Err(syntax())
}

fn menu_line<'a>(alloc: Global, tokens: &[Token<'a>]) -> Result<Statement, LineFault<'a>>
    ensures { (names : List (List ℕ)) → IsRead names names (ReadsTextLine MenuLine (lexemes_from tokens.now 1)) result }
{
    let text = text_at(alloc, tokens, 1)?;
    end(tokens, 2)?;
    Ok(Statement::Head(Head::Menu(Box::new(alloc, text)?)))
}

fn main_menu_line<'a>(alloc: Global, tokens: &[Token<'a>]) -> Result<Statement, LineFault<'a>>
    ensures { (names : List (List ℕ)) → IsRead names names (ReadsTextLine MainMenuLine (lexemes_from tokens.now 1)) result }
{
    let text = text_at(alloc, tokens, 1)?;
    end(tokens, 2)?;
    Ok(Statement::Head(Head::MainMenu(Box::new(alloc, text)?)))
}

fn imply_line<'a>(
    alloc: Global,
    tokens: &[Token<'a>],
    names: &mut Names,
) -> Result<Statement, LineFault<'a>>
    ensures read { IsRead names.old names.new (ReadsTarget ImplyLine (lexemes_from tokens.now 1)) result }
    ensures names { Extends names.old names.new }
{
    let word = target_at(tokens, 1)?;
    let id = name_number(names, word)?;
    let when = condition(alloc, tokens, 2, names)?;
    Ok(Statement::Attribute(Attribute::Imply(id, when)))
}

fn visible_line<'a>(
    alloc: Global,
    tokens: &[Token<'a>],
    names: &mut Names,
) -> Result<Statement, LineFault<'a>>
    ensures read { IsRead names.old names.new (ReadsVisible (lexemes_from tokens.now 1)) result }
    ensures names { Extends names.old names.new }
{
    if !begins_with(tokens, 1, b"if") {
        return Err(syntax());
    }
    let when = whole(alloc, tokens, 2, names)?;
    Ok(Statement::Attribute(Attribute::Visible(when)))
}

fn def_line<'a>(
    alloc: Global,
    constants: &Constants,
    tokens: &[Token<'a>],
    symbol_type: SymbolType,
    names: &mut Names,
) -> Result<Statement, LineFault<'a>>
    requires { 1 ≤ length tokens.now }
    ensures read { IsRead names.old names.new (ReadsValue (DefLine symbol_type) (lexemes_from tokens.now 1)) result }
    ensures names { Extends names.old names.new }
{
    let (value, after) = value_at(alloc, constants, tokens, 1, names)?;
    let when = condition(alloc, tokens, after, names)?;
    Ok(Statement::Attribute(Attribute::Def(symbol_type, SymbolDefault { value, when })))
}

fn prompted_type<'a>(
    alloc: Global,
    tokens: &[Token<'a>],
    symbol_type: SymbolType,
    names: &mut Names,
) -> Result<Statement, LineFault<'a>>
    ensures read { IsRead names.old names.new (ReadsPrompt (λ p. TypeLine symbol_type (Some p)) (lexemes_from tokens.now 1)) result }
    ensures names { Extends names.old names.new }
{
    // The text is not kept.
    raw_text(tokens, 1)?;
    let when = condition(alloc, tokens, 2, names)?;
    Ok(Statement::Attribute(Attribute::Type(symbol_type, Some(Prompt { when }))))
}

fn type_line<'a>(
    alloc: Global,
    tokens: &[Token<'a>],
    symbol_type: SymbolType,
    names: &mut Names,
) -> Result<Statement, LineFault<'a>>
    ensures read { IsRead names.old names.new (ReadsType symbol_type (lexemes_from tokens.now 1)) result }
    ensures names { Extends names.old names.new }
{
    match next(tokens, 1) {
        Some(_) => prompted_type(alloc, tokens, symbol_type, names),
        None => Ok(Statement::Attribute(Attribute::Type(symbol_type, None))),
    }
}

// Reads what follows the first word.
fn rest_of_line<'a>(
    position: &Position<'_>,
    tokens: &[Token<'a>],
    word: &'a [u8],
    keyword: Keyword,
    names: &mut Names,
) -> Result<Statement, LineFault<'a>>
    requires { 1 ≤ length tokens.now }
    ensures read { IsRead names.old names.new (ReadsRest word.now keyword (lexemes_from tokens.now 1)) result }
    ensures names { Extends names.old names.new }
{
    let alloc = position.alloc;
    let constants = position.constants;
    match keyword {
        Keyword::Config => config_line(tokens, names),
        Keyword::If => if_line(alloc, tokens, names),
        Keyword::EndIf => end_line(tokens, Statement::Head(Head::EndIf)),
        Keyword::Comment => comment_line(alloc, tokens),
        Keyword::Source => source_line(alloc, tokens),
        Keyword::Menu => menu_line(alloc, tokens),
        Keyword::EndMenu => end_line(tokens, Statement::Head(Head::EndMenu)),
        Keyword::Choice => choice_line(tokens),
        Keyword::EndChoice => end_line(tokens, Statement::Head(Head::EndChoice)),
        Keyword::MainMenu => main_menu_line(alloc, tokens),
        Keyword::Type(symbol_type) => type_line(alloc, tokens, symbol_type, names),
        Keyword::Prompt => prompt_line(alloc, tokens, names),
        Keyword::Default => default_line(alloc, constants, tokens, names),
        Keyword::Def(symbol_type) => def_line(alloc, constants, tokens, symbol_type, names),
        Keyword::Depends => depends_line(alloc, tokens, names),
        Keyword::Visible => visible_line(alloc, tokens, names),
        Keyword::Select => select_line(alloc, tokens, names),
        Keyword::Imply => imply_line(alloc, tokens, names),
        Keyword::Range => range_line(alloc, tokens, names),
        Keyword::Help => end_line(tokens, Statement::Attribute(Attribute::Help)),
        Keyword::Modules => end_line(tokens, Statement::Attribute(Attribute::Modules)),
        Keyword::Option => option_line(tokens),
        Keyword::LeftOut => Err(left_out(word)),
    }
}

/// Returns the statement of a line that has tokens, or why the line is refused.
pub(crate) fn read_line<'a>(
    position: &Position<'_>,
    tokens: &[Token<'a>],
    names: &mut Names,
) -> Result<Statement, LineFault<'a>>
    ensures read { IsRead names.old names.new (ReadsLine (context_in position.now.frame.now position.now.progress.now) (lexemes_from tokens.now 0)) result }
    ensures names { Extends names.old names.new }
{
    let word = word_at(tokens, 0)?;
    let Some(keyword) = keyword_of(word) else {
        return Err(syntax());
    };
    if let Some(fault) = placement_fault(position.frame, position.progress, word, tokens, keyword) {
        return Err(fault);
    }
    rest_of_line(position, tokens, word, keyword, names)
}
