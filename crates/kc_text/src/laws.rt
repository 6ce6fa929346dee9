//! Laws of lines and texts. Each is the contract of a function that does nothing.
ghost use Rattle.kc_text.specs.Escapes.{UnescapeEscape};
ghost use Rattle.kc_text.specs.Lines.{OneFirstLine, OneNextLine};
ghost use Rattle.kc_text.specs.Tokens.{OneCutting};

/// The law of logical lines: a list of physical lines has at most one longest prefix of joined lines (our own).
pub fn one_first_line()
    ensures { OneFirstLine }
{}

/// The law of the next line: exactly one of three cases holds. The file has ended, or the next logical line has this text
/// and leaves these lines, or that line is too long (our own).
pub fn one_next_line()
    ensures { OneNextLine }
{}

/// The law of tokens: cutting a line has exactly one result: these tokens, or these tokens and then this fault
/// (our own).
pub fn one_cutting()
    ensures { OneCutting }
{}

/// The law of escaped texts: unescaping undoes escaping, for each text (our own).
pub fn unescape_undoes_escape()
    ensures { UnescapeEscape }
{}
