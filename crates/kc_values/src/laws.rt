//! Laws of the equations of every tree.

ghost use Rattle.kc_values.specs.Laws.{EquationsReadNeeds, NeedsAreSymbols, NeedingAreDefined, AcceptedHaveOneSolution, SolutionsAgree, LinesAreFixed, MinimalRestores, MinimalHasNothingToSpare, IdempotentWhere, DifferingAreAllowed, ModeIsPromptCondition, NewCanBeAnswered, NewLinesKeep, RowsTellFacts};

use kc_expr::values::value_depends_on_symbols;

/// An equation reads only the user value of its symbol (for a member, that of its choice) and the values of the symbols
/// that it needs (our own).
pub fn equations_read_needs()
    ensures { EquationsReadNeeds }
{
    value_depends_on_symbols();
}

/// Each need of a symbol is the number of a symbol (our own).
pub fn needs_are_symbols()
    ensures { NeedsAreSymbols }
{}

/// Each symbol that needs another one is defined (our own).
pub fn needing_are_defined()
    ensures { NeedingAreDefined }
{}

/// Every accepted tree has a solution for any user values, and any two solutions agree at each symbol (our own; the
/// kernel's kconfig-language document forbids recursive dependencies).
pub fn accepted_have_one_solution()
    ensures exists { AcceptedHaveOneSolution }
    ensures agree { SolutionsAgree }
{
    equations_read_needs();
    needs_are_symbols();
}

/// The line of a symbol that differs gives its value again: with the line as its user value, and with the same values
/// of all other symbols, its equation gives the same value (our own).
pub fn lines_are_fixed()
    ensures { LinesAreFixed }
{}

/// The lines of the minimal file restore the values, and no nonempty set of these lines can be left out (our own).
pub fn minimal_restores()
    ensures restores { MinimalRestores }
    ensures nothing_to_spare { MinimalHasNothingToSpare }
{
    equations_read_needs();
    needs_are_symbols();
}

/// The written lines that `allowed` accepts restore the values if and only if no symbol changes on rereading. A symbol
/// changes if it is outside a choice, has the type tristate, is visible, and its value is greater than both its
/// visibility and what it is selected to (our own).
pub fn idempotent_where()
    ensures { IdempotentWhere }
{}

/// `allowed` accepts the value of each symbol that differs (our own).
pub fn differing_are_allowed()
    ensures { DifferingAreAllowed }
{}

/// A symbol is new if and only if no line gave it a value and its question can be answered (our own). Outside a choice,
/// some value that `allowed` accepts must change what its equation gives. A member must be visible, no line may have
/// chosen the selection of its choice, and another member as the user's must change the selection.
pub fn new_can_be_answered()
    ensures { NewCanBeAnswered }
{}

/// If `allowed` accepts the lines of the list of new symbols, they keep the values if and only if no new symbol changes
/// on rereading (as for `idempotent_where`). Afterwards a symbol is still new only if it has no line (our own).
pub fn new_lines_keep()
    ensures { NewLinesKeep }
{}

/// Choices don't nest: the prompt of a choice does not depend on the mode of another one. So the mode of a choice is y
/// if and only if the condition of its prompt is not n (our own; the kernel's kconfig-language document on choices).
pub fn choices_stand_alone()
    ensures { ModeIsPromptCondition }
{}

/// The facts of a symbol in a tree are those of its row in any layout of the tree. After the last symbol there is no
/// row, and the tree has no facts (our own).
pub fn rows_tell_facts()
    ensures { RowsTellFacts }
{}
