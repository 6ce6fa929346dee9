//! The codes of diagnostics, and their hints.

ghost use Rattle.std.specs.Prelude.{◌≡◌};
ghost use Rattle.kc_display.specs.Hints.{code_text, hint_text, is_about_tree, names_reason};

/// The code of a diagnostic.
#[derive(Clone, Copy, Debug, PartialEq, Eq)]
pub enum Code {
    /// K1.
    TypeLines,
    /// K2.
    Prompts,
    /// K3.
    NoType,
    /// K4.
    TextTarget,
    /// K5.
    NoMember,
    /// K6.
    MemberTarget,
    /// K7.
    UnknownSymbol,
    /// K8.
    BadValue,
    /// K9.
    BadLine,
    /// K10.
    SetAgain,
    /// K11.
    Selected,
    /// K12.
    OutsideRange,
    /// K13.
    DefaultOutsideRange,
    /// K14.
    LostValue,
    /// K15.
    Overridden,
    /// K16.
    TextUnset,
    /// E1.
    NoFile,
    /// E2.
    Inclusion,
    /// E3.
    TooManyLines,
    /// E4.
    LongLine,
    /// E5.
    BadToken,
    /// E6.
    Macro,
    /// E7.
    LeftOut,
    /// E8.
    Syntax,
    /// E9.
    Blocks,
    /// E10.
    Misplaced,
    /// E11.
    BadName,
    /// E12.
    TooDeep,
    /// E13.
    ChoiceMember,
    /// E14.
    BadDefault,
    /// E15.
    DependencyLoop,
    /// E16.
    TooManySymbols,
    /// E17.
    LongInputLine,
    /// E18.
    CannotRead,
    /// E19.
    CannotWrite,
    /// E20.
    NoMemory,
    /// E21.
    WarningsRefused,
    /// E22.
    NotUpToDate,
    /// E23.
    UnreadableName,
    /// E24.
    UnknownName,
    /// E25.
    OutOfReach,
    /// E26.
    NoFix,
}

/// All codes.
pub(crate) const CODES: [Code; 42] = [
    Code::TypeLines,
    Code::Prompts,
    Code::NoType,
    Code::TextTarget,
    Code::NoMember,
    Code::MemberTarget,
    Code::UnknownSymbol,
    Code::BadValue,
    Code::BadLine,
    Code::SetAgain,
    Code::Selected,
    Code::OutsideRange,
    Code::DefaultOutsideRange,
    Code::LostValue,
    Code::Overridden,
    Code::TextUnset,
    Code::NoFile,
    Code::Inclusion,
    Code::TooManyLines,
    Code::LongLine,
    Code::BadToken,
    Code::Macro,
    Code::LeftOut,
    Code::Syntax,
    Code::Blocks,
    Code::Misplaced,
    Code::BadName,
    Code::TooDeep,
    Code::ChoiceMember,
    Code::BadDefault,
    Code::DependencyLoop,
    Code::TooManySymbols,
    Code::LongInputLine,
    Code::CannotRead,
    Code::CannotWrite,
    Code::NoMemory,
    Code::WarningsRefused,
    Code::NotUpToDate,
    Code::UnreadableName,
    Code::UnknownName,
    Code::OutOfReach,
    Code::NoFix,
];

impl Code {
    /// The text of the code in a diagnostic.
    pub(crate) fn text(self) -> &'static str
        ensures { result.now ≡ code_text self }
    {
        match self {
            Code::TypeLines => "warning K1: ",
            Code::Prompts => "warning K2: ",
            Code::NoType => "warning K3: ",
            Code::TextTarget => "warning K4: ",
            Code::NoMember => "warning K5: ",
            Code::MemberTarget => "warning K6: ",
            Code::UnknownSymbol => "warning K7: ",
            Code::BadValue => "warning K8: ",
            Code::BadLine => "warning K9: ",
            Code::SetAgain => "warning K10: ",
            Code::Selected => "warning K11: ",
            Code::OutsideRange => "warning K12: ",
            Code::DefaultOutsideRange => "warning K13: ",
            Code::LostValue => "warning K14: ",
            Code::Overridden => "warning K15: ",
            Code::TextUnset => "warning K16: ",
            Code::NoFile => "error E1: ",
            Code::Inclusion => "error E2: ",
            Code::TooManyLines => "error E3: ",
            Code::LongLine => "error E4: ",
            Code::BadToken => "error E5: ",
            Code::Macro => "error E6: ",
            Code::LeftOut => "error E7: ",
            Code::Syntax => "error E8: ",
            Code::Blocks => "error E9: ",
            Code::Misplaced => "error E10: ",
            Code::BadName => "error E11: ",
            Code::TooDeep => "error E12: ",
            Code::ChoiceMember => "error E13: ",
            Code::BadDefault => "error E14: ",
            Code::DependencyLoop => "error E15: ",
            Code::TooManySymbols => "error E16: ",
            Code::LongInputLine => "error E17: ",
            Code::CannotRead => "error E18: ",
            Code::CannotWrite => "error E19: ",
            Code::NoMemory => "error E20: ",
            Code::WarningsRefused => "error E21: ",
            Code::NotUpToDate => "error E22: ",
            Code::UnreadableName => "error E23: ",
            Code::UnknownName => "error E24: ",
            Code::OutOfReach => "error E25: ",
            Code::NoFix => "error E26: ",
        }
    }

    /// What the user can do.
    pub(crate) fn hint(self) -> &'static str
        ensures { result.now ≡ hint_text self }
    {
        match self {
            Code::TypeLines => "the lines give the symbol two types: keep one of them",
            Code::Prompts => "one entry has two prompts: keep one of them",
            Code::NoType => "give the symbol a type line, such as bool, or remove its config line",
            Code::TextTarget => {
                "select and imply set bool and tristate symbols only: remove the line, or give the symbol a default"
            }
            Code::NoMember => {
                "the default of a choice names one of its members: fix the name, or remove the default"
            }
            Code::MemberTarget => {
                "a choice sets its members by itself: remove the line, or add a default to the choice"
            }
            Code::UnknownSymbol => {
                "no file of the tree defines this symbol with a type: fix its name, or remove the line"
            }
            Code::BadValue => {
                "a bool is y or n, a tristate y, m or n, an int digits, a hex 0x and digits, a string a text in quotes: fix the value"
            }
            Code::BadLine => {
                "a line is a comment, or has the form NAME=VALUE or # NAME is not set, where NAME begins with the prefix: fix the line"
            }
            Code::SetAgain => {
                "an earlier line set this symbol, and the last line counts: keep one of them"
            }
            Code::Selected => {
                "a select does not look at what the symbol depends on: fix the select, or the dependency"
            }
            Code::OutsideRange => {
                "the value is dropped: give one within the range, or change what the range depends on"
            }
            Code::DefaultOutsideRange => {
                "the default is replaced: change it to a value within the range"
            }
            Code::LostValue => {
                "--explain NAME tells what decides the value: remove the line, or change what the symbol depends on"
            }
            Code::Overridden => "the last line counts: keep one of the two lines",
            Code::TextUnset => {
                "such a line gives n to a bool or tristate only: remove it, or give the symbol a value"
            }
            Code::NoFile => {
                "create the file, or fix its name in the source line; --root DIR gives the folder of the tree"
            }
            Code::Inclusion => "remove one of the source lines of the loop",
            Code::TooManyLines => {
                "the files of a tree have at most 1000000 lines together: split the tree"
            }
            Code::LongLine => {
                "a line has at most 8191 bytes, with the lines that a backslash joins to it: split it"
            }
            Code::BadToken => {
                "here stands a byte that begins no word, operator or quoted text, or a quote that its line does not close: fix the line"
            }
            Code::Macro => {
                "macros are not part of the language of kconf: kconf-tree and kconf-flatten expand them"
            }
            Code::LeftOut => {
                "kconf does not have this part of the language: docs/language.md says what takes its place"
            }
            Code::Syntax => {
                "the line does not follow the form of its first word: docs/language.md has the form of each line"
            }
            Code::Blocks => {
                "if, menu and choice end in their own file with endif, endmenu and endchoice, the innermost first"
            }
            Code::Misplaced => {
                "an attribute stands below its config, menuconfig, choice, menu or comment line, and below those that may have it: move the line"
            }
            Code::BadName => {
                "a name has 1 to 255 letters, digits and _, and is none of n, m, y and if: rename the symbol"
            }
            Code::TooDeep =>
                "at most 64 blocks, files, parentheses and ! are open at once: nest less",
            Code::ChoiceMember => {
                "a member of a choice has one config line and the type bool: fix its lines"
            }
            Code::BadDefault => {
                "a default of a string, int or hex is one word or text, and one of a choice is the name of a member: fix the default"
            }
            Code::DependencyLoop => {
                "each symbol of the loop needs the next one: remove one of these dependencies"
            }
            Code::TooManySymbols => "a tree defines at most 65535 symbols: split the tree",
            Code::LongInputLine => "a line of an input file has at most 65535 bytes: shorten it",
            Code::CannotRead => "check that the file is there and may be read",
            Code::CannotWrite => {
                "check that its folder is there and may be written, and that the disk has room"
            }
            Code::NoMemory => "give the process more memory",
            Code::WarningsRefused => {
                "mend what the warnings tell, or run without --strict and --strict-tree; --quiet-tree hides warnings that count"
            }
            Code::NotUpToDate => {
                "run again with --replace in place of --check; --diff shows what differs"
            }
            Code::UnreadableName => {
                "a name in a dependency file has no tab, =, ;, *, ? or [, and does not end in a blank, & or ): rename the file"
            }
            Code::UnknownName => {
                "give the name of a symbol that the tree mentions, with or without the prefix"
            }
            Code::OutOfReach => {
                "ask for a value that it can have; if symbols are listed below, change what they depend on"
            }
            Code::NoFix => "raise --how-steps, or ask first for a symbol that this one depends on",
        }
    }

    /// Whether its hint starts with the reason of the system: a file cannot be read or written.
    pub(crate) fn names_reason(self) -> bool
        ensures { result ≡ names_reason self }
    {
        matches!(self, Code::CannotRead | Code::CannotWrite)
    }

    /// Whether this is a code for a warning about the tree.
    pub(crate) fn is_about_tree(self) -> bool
        ensures { result ≡ is_about_tree self }
    {
        matches!(
            self,
            Code::TypeLines
                | Code::Prompts
                | Code::NoType
                | Code::TextTarget
                | Code::NoMember
                | Code::MemberTarget
        )
    }
}
