//! The form of a line of a tree, and where such a line may be.
ghost use Rattle.std.specs.Prelude.{◌≡◌, option_map, Some};
ghost use Rattle.kc_language.specs.Expressions.{same_name};
ghost use Rattle.kc_hints.specs.FormView.{form_view};
ghost use Rattle.kc_hints.specs.Forms as spec;
ghost use Rattle.kc_hints.specs.Forms.{attribute_forms, form_in, statement_forms, type_forms};

use kc_text::is_blank;

/// The form of a line, and where it may be.
#[derive(Clone, Copy)]
pub(crate) struct Form {
    pub form: &'static [u8],
    pub place: &'static [u8],
}

fn made(form: &'static [u8], place: &'static [u8]) -> Option<Form>
    ensures { option_map form_view result ≡ Some (form.now, place.now) }
{
    Some(Form { form, place })
}

// Whether two words are the same.
fn same_word(word: &[u8], other: &[u8]) -> bool
    ensures { result ≡ same_name word.now other.now }
{
    word == other
}

// The form of an attribute that gives no type.
fn attribute_form(word: &[u8]) -> Option<Form>
    ensures { option_map form_view result ≡ form_in attribute_forms word.now }
{
    if same_word(word, b"prompt") {
        made(b"prompt TEXT [if EXPR]", b"in a config or a choice")
    } else if same_word(word, b"default") {
        made(b"default EXPR [if EXPR]", b"in a config or a choice")
    } else if same_word(word, b"depends") {
        made(b"depends on EXPR", b"in a config, choice, menu or comment")
    } else if same_word(word, b"visible") {
        made(b"visible if EXPR", b"in a menu")
    } else if same_word(word, b"select") {
        made(b"select NAME [if EXPR]", b"in a config")
    } else if same_word(word, b"imply") {
        made(b"imply NAME [if EXPR]", b"in a config")
    } else if same_word(word, b"range") {
        made(b"range OPERAND OPERAND [if EXPR]", b"in a config")
    } else if same_word(word, b"help") {
        made(b"help", b"in a config or a choice")
    } else if same_word(word, b"---help---") {
        made(b"---help---", b"in a config or a choice")
    } else if same_word(word, b"modules") {
        made(b"modules", b"in a config")
    } else if same_word(word, b"option") {
        made(b"option modules", b"in a config")
    } else {
        None
    }
}

// The form of a type.
fn type_form(word: &[u8]) -> Option<Form>
    ensures { option_map form_view result ≡ form_in type_forms word.now }
{
    if same_word(word, b"bool") {
        made(b"bool [TEXT [if EXPR]]", b"in a config or a choice")
    } else if same_word(word, b"tristate") {
        made(b"tristate [TEXT [if EXPR]]", b"in a config")
    } else if same_word(word, b"string") {
        made(b"string [TEXT [if EXPR]]", b"in a config")
    } else if same_word(word, b"int") {
        made(b"int [TEXT [if EXPR]]", b"in a config")
    } else if same_word(word, b"hex") {
        made(b"hex [TEXT [if EXPR]]", b"in a config")
    } else if same_word(word, b"def_bool") {
        made(b"def_bool EXPR [if EXPR]", b"in a config")
    } else if same_word(word, b"def_tristate") {
        made(b"def_tristate EXPR [if EXPR]", b"in a config")
    } else {
        None
    }
}

// The form of any other line.
fn statement_form(word: &[u8]) -> Option<Form>
    ensures { option_map form_view result ≡ form_in statement_forms word.now }
{
    if same_word(word, b"config") {
        made(b"config NAME", b"anywhere")
    } else if same_word(word, b"menuconfig") {
        made(b"menuconfig NAME", b"anywhere")
    } else if same_word(word, b"if") {
        made(b"if EXPR", b"anywhere")
    } else if same_word(word, b"comment") {
        made(b"comment TEXT", b"anywhere")
    } else if same_word(word, b"source") {
        made(b"source TEXT", b"anywhere")
    } else if same_word(word, b"menu") {
        made(b"menu TEXT", b"outside a choice")
    } else if same_word(word, b"mainmenu") {
        made(b"mainmenu TEXT", b"outside a choice")
    } else if same_word(word, b"choice") {
        made(b"choice", b"outside a choice")
    } else if same_word(word, b"endif") {
        made(b"endif", b"at the end of its block, in the same file")
    } else if same_word(word, b"endmenu") {
        made(b"endmenu", b"at the end of its block, in the same file")
    } else if same_word(word, b"endchoice") {
        made(b"endchoice", b"at the end of its block, in the same file")
    } else {
        None
    }
}

// The form of the lines that start with a word.
fn form_for(word: &[u8]) -> Option<Form>
    ensures { option_map form_view result ≡ spec.form_for word.now }
{
    if let Some(found) = attribute_form(word) {
        return Some(found);
    }
    if let Some(found) = type_form(word) {
        return Some(found);
    }
    statement_form(word)
}

// The bytes from the first one that is not a blank.
fn without_blanks(bytes: &[u8]) -> &[u8]
    ensures { result.now ≡ spec.without_blanks bytes.now }
{
    let mut rest = bytes;
    'blanks: while let [byte, behind @ ..] = rest {
        if !is_blank(*byte) {
            return rest;
        }
        rest = behind;
    }
    rest
}

// The bytes before the first blank.
fn word_of(text: &[u8]) -> &[u8]
    ensures { result.now ≡ spec.word_of text.now }
{
    for i in 0..text.len() {
        if is_blank(text[i]) {
            return &text[..i];
        }
    }
    text
}

/// Returns the form of a line, by its first word.
pub(crate) fn form_of(line: &[u8]) -> Option<Form>
    ensures { option_map form_view result ≡ spec.form_of line.now }
{
    form_for(word_of(without_blanks(line)))
}
