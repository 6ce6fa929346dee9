//! The words that begin a line.

ghost use Rattle.std.specs.Prelude.{◌≡◌};
ghost use Rattle.kc_language.specs.Expressions.{same_name};
ghost use Rattle.kc_language.specs.Statements as spec;
ghost use Rattle.kc_entries.specs.PartsOfStatements as spec_parts;

use kc_entries::statement::Keyword;
use kc_expr::expression::SymbolType;
use kc_text::same_few;

/// Whether two words are the same.
#[inline(always)]
pub(crate) fn same_word(word: &[u8], other: &[u8]) -> bool
    ensures { result ≡ same_name word.now other.now }
{
    same_few(word, other)
}

// The words of four bytes or fewer.
fn short_word(word: &[u8]) -> Option<Keyword>
    ensures { result ≡ spec_parts.keyword_in spec_parts.short_words word.now }
{
    if same_word(word, b"bool") {
        Some(Keyword::Type(SymbolType::Bool))
    } else if same_word(word, b"help") {
        Some(Keyword::Help)
    } else if same_word(word, b"if") {
        Some(Keyword::If)
    } else if same_word(word, b"int") {
        Some(Keyword::Type(SymbolType::Int))
    } else if same_word(word, b"hex") {
        Some(Keyword::Type(SymbolType::Hex))
    } else if same_word(word, b"menu") {
        Some(Keyword::Menu)
    } else {
        None
    }
}

// The words of five bytes.
fn word_of_five(word: &[u8]) -> Option<Keyword>
    ensures { result ≡ spec_parts.keyword_in spec_parts.five_words word.now }
{
    if same_word(word, b"endif") {
        Some(Keyword::EndIf)
    } else if same_word(word, b"range") {
        Some(Keyword::Range)
    } else if same_word(word, b"imply") {
        Some(Keyword::Imply)
    } else {
        None
    }
}

// The words of six bytes.
fn word_of_six(word: &[u8]) -> Option<Keyword>
    ensures { result ≡ spec_parts.keyword_in spec_parts.six_words word.now }
{
    if same_word(word, b"config") {
        Some(Keyword::Config)
    } else if same_word(word, b"select") {
        Some(Keyword::Select)
    } else if same_word(word, b"string") {
        Some(Keyword::Type(SymbolType::Str))
    } else if same_word(word, b"prompt") {
        Some(Keyword::Prompt)
    } else if same_word(word, b"source") {
        Some(Keyword::Source)
    } else if same_word(word, b"choice") {
        Some(Keyword::Choice)
    } else if same_word(word, b"option") {
        Some(Keyword::Option)
    } else {
        None
    }
}

// The words of seven bytes.
fn word_of_seven(word: &[u8]) -> Option<Keyword>
    ensures { result ≡ spec_parts.keyword_in spec_parts.seven_words word.now }
{
    if same_word(word, b"depends") {
        Some(Keyword::Depends)
    } else if same_word(word, b"default") {
        Some(Keyword::Default)
    } else if same_word(word, b"endmenu") {
        Some(Keyword::EndMenu)
    } else if same_word(word, b"comment") {
        Some(Keyword::Comment)
    } else if same_word(word, b"visible") {
        Some(Keyword::Visible)
    } else if same_word(word, b"modules") {
        Some(Keyword::Modules)
    } else if same_word(word, b"rsource") {
        Some(Keyword::LeftOut)
    } else if same_word(word, b"osource") {
        Some(Keyword::LeftOut)
    } else if same_word(word, b"boolean") {
        Some(Keyword::LeftOut)
    } else if same_word(word, b"def_int") {
        Some(Keyword::LeftOut)
    } else if same_word(word, b"def_hex") {
        Some(Keyword::LeftOut)
    } else {
        None
    }
}

// The words of eight bytes.
fn word_of_eight(word: &[u8]) -> Option<Keyword>
    ensures { result ≡ spec_parts.keyword_in spec_parts.eight_words word.now }
{
    if same_word(word, b"tristate") {
        Some(Keyword::Type(SymbolType::Tristate))
    } else if same_word(word, b"def_bool") {
        Some(Keyword::Def(SymbolType::Bool))
    } else if same_word(word, b"mainmenu") {
        Some(Keyword::MainMenu)
    } else if same_word(word, b"orsource") {
        Some(Keyword::LeftOut)
    } else if same_word(word, b"optional") {
        Some(Keyword::LeftOut)
    } else {
        None
    }
}

// The words of nine bytes or more.
fn long_word(word: &[u8]) -> Option<Keyword>
    ensures { result ≡ spec_parts.keyword_in spec_parts.long_words word.now }
{
    if same_word(word, b"menuconfig") {
        Some(Keyword::Config)
    } else if same_word(word, b"endchoice") {
        Some(Keyword::EndChoice)
    } else if same_word(word, b"def_tristate") {
        Some(Keyword::Def(SymbolType::Tristate))
    } else if same_word(word, b"---help---") {
        Some(Keyword::Help)
    } else if same_word(word, b"def_string") {
        Some(Keyword::LeftOut)
    } else if same_word(word, b"transitional") {
        Some(Keyword::LeftOut)
    } else {
        None
    }
}

/// The keyword of a first word. Its length leaves few candidates.
pub(crate) fn keyword_of(word: &[u8]) -> Option<Keyword>
    ensures { result ≡ spec.keyword_of word.now }
{
    match word.len() {
        0..=4 => short_word(word),
        5 => word_of_five(word),
        6 => word_of_six(word),
        7 => word_of_seven(word),
        8 => word_of_eight(word),
        _ => long_word(word),
    }
}
