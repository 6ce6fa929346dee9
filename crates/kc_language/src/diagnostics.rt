//! Errors of a tree, errors of a run, and warnings.

ghost use Rattle.std.specs.Prelude.{◌≡◌};
ghost use Rattle.kc_language.specs.declared.diagnostics.Cause.TheVariants.{Memory};

use std::alloc::{AllocError, AllocFailed};

/// Why a tree is refused (our own). A cause about a name, a word or a loop holds its text as an `N`.
#[derive(Clone, Copy, Debug, Drop, PartialEq, Eq)]
pub enum Cause<N> {
    /// E1: the file does not exist, or its name is not UTF-8.
    NoFile(N),
    /// E2: the file sources itself, directly or through others.
    InclusionLoop(N),
    /// E3: the files have too many physical lines together.
    TooManyLines,
    /// E4: a logical line has too many bytes.
    LineTooLong,
    /// E5: a byte starts no token, or a quoted text has no end.
    BadToken,
    /// E6: a macro: a `$` at the start of a token, or in a quoted text.
    Macro,
    /// E7: this construct of the language is not supported.
    LeftOut(N),
    /// E8: the line does not follow the grammar.
    Syntax,
    /// E9: a line closes a block that is not the innermost open one, or a block is never closed.
    Block,
    /// E10: the line is not allowed here.
    Misplaced,
    /// E11: a symbol must not have this name.
    BadName(N),
    /// E12: too many blocks, files or levels are open at once.
    TooDeep,
    /// E13: this member of a choice has a second `config` line, or a type that is not bool.
    ChoiceMember(N),
    /// E14: this entry has a default that is not allowed.
    BadDefault(N),
    /// E15: a symbol depends on itself through this dependency loop.
    Loop(N),
    /// E16: too many symbols are defined.
    TooManySymbols,
    /// E20: memory ran out.
    Memory,
}

impl<N> From<AllocError> for Cause<N> {
    ghost from_gives = { λ _ cause. cause ≡ Memory };

    fn from(_error: AllocError) -> Cause<N> {
        Cause::Memory
    }
}

impl<N, T: Drop> From<AllocFailed<T>> for Cause<N> {
    ghost from_gives = { λ _ cause. cause ≡ Memory };

    fn from(_error: AllocFailed<T>) -> Cause<N> {
        Cause::Memory
    }
}

/// Errors of a run that are not errors of its tree (our own). An error about a file holds its name as an `N`.
#[derive(Clone, Copy, Debug, PartialEq, Eq)]
pub enum RunError<N> {
    /// E17: a line of an input file has too many bytes.
    LineTooLong,
    /// E18: the file cannot be read.
    CannotRead(N),
    /// E19: the file cannot be created or written.
    CannotWrite(N),
    /// E20: memory ran out.
    Memory,
    /// E21: there were warnings, and an option refuses them.
    WarningsRefused,
    /// E22: the file is not up to date.
    NotUpToDate(N),
    /// E23: make cannot read the name of the file.
    UnreadableName(N),
    /// E24: no symbol has the first name. The second text lists the names that differ from it by one letter.
    UnknownName(N, N),
}

/// Warnings (our own). A warning holds the names of symbols and the printed values that it is about, each as an `N`.
#[derive(Clone, Copy, Debug, Drop, PartialEq, Eq)]
pub enum Warning<N> {
    /// K1: a line gives this symbol another type than its first type line. The first type is kept.
    TypeRedefined(N),
    /// K2: the entry of this name has a second prompt. The last prompt is kept.
    PromptRedefined(N),
    /// K3: the symbol has no type and is no member of a choice.
    WithoutType(N),
    /// K4: a `select` or `imply` line names a string, int or hex symbol and has no effect. `word` is its keyword.
    TextTarget {
        name: N,
        word: N,
    },
    /// K5: a default of a choice names a symbol that is not a member of it.
    DefaultNotMember(N),
    /// K6: a `select` or `imply` line names a member of a choice and has no effect. `word` is its keyword.
    MemberTarget {
        name: N,
        word: N,
    },
    /// K7: no defined symbol with a type has this name.
    UnknownSymbol(N),
    /// K8: the value is not allowed for the symbol.
    NotAllowed(N),
    /// K9: the line has none of the forms of a `.config` line.
    MalformedLine,
    /// K10: the symbol was set before.
    SetAgain(N),
    /// K11: the symbol is selected to a greater value than its direct dependency.
    Selected {
        name: N,
        selected_to: N,
        direct: N,
    },
    /// K12: the user value is outside the active range, and is dropped.
    UserOutside {
        name: N,
        value: N,
        low: N,
        high: N,
    },
    /// K13: the default is outside the active range, and another value is used.
    DefaultOutside {
        name: N,
        value: N,
        low: N,
        high: N,
        used: N,
    },
    /// K14: the value that was given is not the value of the symbol, which has a prompt.
    Lost {
        name: N,
        given: N,
        value: N,
    },
    /// K14: the value that was given is not the value of the symbol, which has no prompt.
    LostWithoutPrompt {
        name: N,
        given: N,
        value: N,
    },
    /// K15: a line changes the value that the line `FILE:LINE` gave the symbol.
    Changed {
        name: N,
        old: N,
        file: N,
        line: u64,
        new: N,
    },
    /// K16: a line `# NAME is not set` names a string, int or hex symbol and has no effect.
    TextUnset(N),
}
