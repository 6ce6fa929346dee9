//! The facts of an explanation.

use crate::lines::Line;
use crate::parts::ConditionPart;
use kc_entries::statement::{SymbolDefault, SymbolRange};
use kc_expr::expression::{Expr, SymId, SymbolType, Tri};
use kc_input::shown::{InputLine, RefusedLine};
use kc_language::symbols::SelectOrImply;
use kc_user::value::UserValue;
use std::rc::Rc;

/// A fact about a symbol (our own): what it is about, and the values that it gives. A condition has the value of all that its
/// line depends on.
#[derive(Clone, Copy)]
pub(crate) enum Fact<'a> {
    /// What the input files gave for a symbol, and in which line.
    UserGave {
        at: Option<InputLine<'a>>,
        symbol: SymId,
        given: Option<&'a UserValue>,
    },
    /// The member that a line chose for the choice with this number.
    Chosen {
        at: Option<InputLine<'a>>,
        choice: usize,
        member: Option<SymId>,
    },
    /// The last line of a symbol whose value was not allowed.
    NotAllowed {
        symbol: SymId,
        refused: RefusedLine<'a>,
    },
    /// A part of a condition.
    Part {
        part: ConditionPart<'a>,
        value: Tri,
    },
    /// What the entry that begins with this line depends on.
    Dependency {
        line: Line<'a>,
        value: Tri,
    },
    /// The visibility by the prompt of this line.
    Prompt {
        line: Line<'a>,
        value: Tri,
    },
    /// A default of a symbol of this type, with its condition. `counts`: it is the one that gives the value.
    Default {
        symbol_type: SymbolType,
        line: Line<'a>,
        what: &'a SymbolDefault,
        value: Tri,
        counts: bool,
    },
    /// The same for a range.
    Range {
        symbol_type: SymbolType,
        line: Line<'a>,
        what: &'a SymbolRange,
        value: Tri,
        counts: bool,
    },
    /// A line of a symbol with the value `by_value` that selects or implies up to `value`, which is not n.
    Raised {
        word: SelectOrImply,
        by: SymId,
        by_value: Tri,
        line: Line<'a>,
        when: &'a Option<Rc<Expr>>,
        value: Tri,
    },
    /// How many lines select or imply up to n.
    NotRaised {
        word: SelectOrImply,
        count: usize,
    },
    /// The value of the modules symbol.
    Modules {
        symbol: SymId,
        value: Tri,
    },
    /// The mode of the choice that begins with this line.
    Mode {
        line: Line<'a>,
        value: Tri,
    },
    /// What the prompts of a member are worth.
    Member {
        symbol: SymId,
        value: Tri,
    },
    /// A default of a choice, with its condition, and what the prompts of its member are worth.
    MemberDefault {
        line: Line<'a>,
        member: SymId,
        when: &'a Option<Rc<Expr>>,
        value: Tri,
        prompt: Tri,
    },
}
