//! Laws of the outcomes of runs, stated as the contracts of functions that do nothing.
ghost use Rattle.kc_conf.specs.Laws.{ExactlyOneAnswer, ExactlyOneOutcome, NothingIsLost, StrictTakesAll, DiagnosticsAreLines, MinimalIsRunAgain, OutcomesAreReadAgain, TextsAreReadAgain, DoneAreWhole, ExplanationsDecide};
ghost use Rattle.kc_conf.specs.LawSteps.{SolutionExists};
ghost use Rattle.kc_conf.specs.LawSteps.{AcceptedHaveAnOutcome, AnswerExists, OutcomeExists, OneAnswer, OneOutcome};
ghost use Rattle.kc_conf.specs.Many.{ExactlyOnePart, PartsAreOfRuns, EachLeavesItsPart};

use crate::many::Configurations;
use kc_build::laws::{one_tree, trees_are_well_formed};
use kc_config_file::laws::{
    config_is_idempotent, config_is_of_values, minimal_gives_back, written_texts_are_short,
};
use kc_explain::laws::words_decide;
use kc_input::laws::{lines_give_in_turn, reading_leaves_allowed_places};
use kc_order::{one_named_loop, unordered_have_a_loop};
use kc_read::laws::{has_one_expansion, opened_are_one_list};
use kc_values::laws::{
    accepted_have_one_solution, equations_read_needs, needing_are_defined, needs_are_symbols,
};

/// The law of the tree: a root file has at most one accepted tree, at most one refusal, and not both; and
/// at most one list of lines. It does nothing.
pub(crate) fn one_answer()
    ensures { OneAnswer }
{
    has_one_expansion();
    one_tree();
    one_named_loop();
    unordered_have_a_loop();
}

/// The law of the outcome: for files, options and the bytes of the input files there is at most one. It does nothing.
pub(crate) fn one_outcome()
    ensures { OneOutcome }
{
    one_answer();
}

/// An outcome of status `Done` belongs to a run that refuses nothing. Its tree is accepted, no line of its input files
/// is too long, and each text that is wanted is that of the one solution. (Our own.)
pub fn done_are_whole()
    ensures { DoneAreWhole }
{}

/// The diagnostics of an outcome are whole lines, each with its line feed. (Our own.)
pub fn diagnostics_are_lines()
    ensures { DiagnosticsAreLines }
{}

/// With `warn_lost`, if the status is `Done`, no line of the input files is lost silently. Each line is of one of three
/// kinds. It is a comment or an empty line. Or it has a warning, which is a line of the diagnostics. Or
/// it gives a symbol a value, and one of three things holds. First: it is the symbol's value, as in the text of the
/// written `.config`. Second: a line of the diagnostics reports that it is not, with the location of this line, and
/// says if the symbol has no prompt (K14). Third: the next line that gives the symbol a value is reported to set it
/// again (K10). If it gives another value, it is reported to change it, with the location of both lines and both values
/// (K15). (Our own.)
pub fn nothing_is_lost()
    ensures { NothingIsLost }
{
    trees_are_well_formed();
    done_are_whole();
    lines_give_in_turn();
}

/// The promise of `--strict`. If the status with it is `Done`, each line of the input files was taken as written. It is
/// a comment or an empty line, or it gives a symbol a value, no later line gives the symbol another one, and no user
/// value is outside its range (K12). With `warn_lost`, the value of a line is the symbol's value, as in the text of the
/// written `.config`. Only without `warn_lost` may there be a line without effect: `# NAME is not set` of a string, int
/// or hex (K16). (Our own.)
pub fn strict_takes_all()
    ensures { StrictTakesAll }
{
    trees_are_well_formed();
    done_are_whole();
    lines_give_in_turn();
}

/// For every file map, options and input files whose run refuses nothing, the minimal file and the `.config` are read
/// again, each alone and from no user values. The minimal file restores the values, and with any nonempty set of its
/// lines left out it does not. The `.config` restores them if and only if no visible tristate symbol outside a choice
/// is greater than both its visibility and what it is selected to, under the conditions of `config_is_idempotent` of
/// kc_config_file. No line of the two is too long to be read again, for any numbers and titles. This requires a valid
/// prefix. (Our own.)
pub fn texts_are_read_again()
    ensures { TextsAreReadAgain }
{
    trees_are_well_formed();
    reading_leaves_allowed_places();
    minimal_gives_back();
    config_is_idempotent();
    written_texts_are_short();
}

/// The same for the texts of an outcome of status `Done`, each read again alone and from no user values. No line of
/// them is too long. The minimal file restores the values of the outcome, and with any nonempty set of its lines left
/// out it gives others. The `.config` restores them if and only if the rule above holds, under its conditions. (Our
/// own.)
pub fn outcomes_are_read_again()
    ensures { OutcomesAreReadAgain }
{
    done_are_whole();
    texts_are_read_again();
}

/// A run on the minimal file of an outcome of status `Done`, with the same files, root file and prefix, which allows
/// warnings, ends `Done` with the same values. It writes the `.config` and the header of these values, if they are
/// wanted. (Our own.)
pub fn minimal_is_run_again()
    ensures { MinimalIsRunAgain }
{
    one_answer();
    done_are_whole();
    texts_are_read_again();
    config_is_of_values();
}

/// What an explanation prints decides the value. Take two runs over one tree that refuse nothing, with any options and
/// input files. Both write strings raw, or both escaped. If the lines about a symbol in its explanation are the same,
/// without its first line, the menus and the locations in input files, the symbol has the same value. (Our own.)
pub fn explanations_decide()
    ensures { ExplanationsDecide }
{
    words_decide();
}

/// There is an outcome for any files, options and input files: a root file has an accepted tree or a refusal (such as a
/// reported dependency loop), and an accepted tree has a solution. (Our own.)
pub(crate) fn outcome_exists()
    ensures solution { SolutionExists }
    ensures answer { AnswerExists }
    ensures accepted { AcceptedHaveAnOutcome }
    ensures outcome { OutcomeExists }
{
    has_one_expansion();
    opened_are_one_list();
    accepted_have_one_solution();
    equations_read_needs();
    needs_are_symbols();
    needing_are_defined();
    unordered_have_a_loop();
    trees_are_well_formed();
    reading_leaves_allowed_places();
}

/// For any files a root file has one accepted tree and no refusal, or one refusal and no accepted tree. (Our own.)
pub fn exactly_one_answer()
    ensures { ExactlyOneAnswer }
{
    outcome_exists();
    one_answer();
}

/// For every file map, options and input files there is exactly one outcome. (Our own.)
pub fn exactly_one_outcome()
    ensures { ExactlyOneOutcome }
{
    outcome_exists();
    one_outcome();
}

/// The law of many configurations of one tree: the run for one configuration leaves exactly one part after the tree's
/// warnings, given by its own options and input files. Its own run leaves the same part after them. (Our own.)
pub fn exactly_one_part()
    ensures one { ExactlyOnePart }
    ensures alone { PartsAreOfRuns }
{
    one_answer();
    one_outcome();
    exactly_one_outcome();
}

/// The law of many configurations in one run: if no file that one of them writes is an input or an output of another
/// one, each leaves its part for what its input files held before the run. If its turn was complete, each file that it
/// writes holds its text after the run. A file that none of them writes stays the same. This holds for a device that
/// records what was done. (Our own.)
pub fn configurations_stand_apart<C: Configurations>(configurations: &C)
    ensures { EachLeavesItsPart (C.options configurations.now) (C.number configurations.now) }
{}
