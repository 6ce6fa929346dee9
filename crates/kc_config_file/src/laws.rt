//! Laws of reading the written texts again, stated as the contracts of functions that do nothing.
ghost use Rattle.kc_config_file.specs.WrittenLaws.{ConfigIsIdempotent, ConfigIsOfValues, MinimalHasNothingToSpare, MinimalRestores, NewListGivesBack, WrittenTextsAreShort};

use kc_values::laws::{
    accepted_have_one_solution, differing_are_allowed, equations_read_needs, idempotent_where,
    minimal_restores, needs_are_symbols, new_lines_keep,
};

/// No line of the written `.config` or of the minimal file has more than 65,535 bytes before its LF, so both can be
/// read again without E17. This holds for any numbers and titles. (Our own.)
pub fn written_texts_are_short()
    ensures { WrittenTextsAreShort }
{
    equations_read_needs();
    needs_are_symbols();
}

/// Reading the minimal file, from no user values, restores the values: they are the one solution. The file has one line
/// for each symbol that differs. If any nonempty set of these lines is left out, the values are not the solution. (Our
/// own.)
pub fn minimal_gives_back()
    ensures restores { MinimalRestores }
    ensures nothing_to_spare { MinimalHasNothingToSpare }
{
    minimal_restores();
    differing_are_allowed();
}

/// Reading the written `.config`, from no user values, restores the values if and only if no visible tristate symbol
/// outside a choice is greater than both its visibility and what it is selected to. This requires that no written int
/// or hex value ends in a blank or a carriage return. The main menu's title and each shown title of a menu or comment
/// must not be written as a line that reads as an unset line. (Our own.)
pub fn config_is_idempotent()
    ensures { ConfigIsIdempotent }
{
    accepted_have_one_solution();
    equations_read_needs();
    needs_are_symbols();
    idempotent_where();
}

/// The list of new symbols is read after the input files; no new string is too long for a line. Then its lines have no
/// warnings. The values stay if and only if no new tristate symbol outside a choice is greater than both its visibility
/// and what it is selected to. A symbol is still new only if it has a comment: an int or hex whose value is not a
/// number. (Our own.)
pub fn new_list_gives_back()
    ensures { NewListGivesBack }
{
    accepted_have_one_solution();
    equations_read_needs();
    needs_are_symbols();
    new_lines_keep();
}

/// The written `.config` depends only on the values, not on the user values or on which symbols differ because of them.
/// (Our own.)
pub fn config_is_of_values()
    ensures { ConfigIsOfValues }
{}
