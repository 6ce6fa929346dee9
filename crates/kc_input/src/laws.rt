//! Laws of reading, stated as the contracts of functions that do nothing.
ghost use Rattle.kc_input.specs.Calls.{CallsJoin};
ghost use Rattle.kc_input.specs.ReadingLaws.{AllowedAreAssigned, AssignedAreAllowed, LinesAreCut, LinesGiveInTurn, ReadingGoesLineByLine};
ghost use Rattle.kc_input.specs.RoundTrip.{UnsetLineReadAgain, SetLineReadAgain, StringReadAgain, WrittenLinesAreShort};
ghost use Rattle.kc_input.specs.Streams.{ReadingKeepsPlaces, RefusalsKeepPlaces, StreamsAreRead, StreamsLeavePlaces};

use kc_user::laws::places_hold_what_is_allowed;

/// A file's bytes are cut into lines at each line feed. The bytes after the last line feed are the last line, if there
/// are any. (Our own.)
pub fn lines_are_cut()
    ensures { LinesAreCut }
{}

/// Reading works line by line, each from the input after the earlier lines, and stops at the first line that is too
/// long. (Our own.)
pub fn reading_goes_line_by_line()
    ensures { ReadingGoesLineByLine }
{}

/// Lines add up: the input, the warnings and the lines not taken as written are those of the first lines, followed by
/// those of the others. Each line has exactly its effect. The number of places stays the same. (Our own.)
pub fn lines_give_in_turn()
    ensures { LinesGiveInTurn }
{}

/// Any list of calls of a reader that all return Ok equals one reading of the lines of all fed bytes, where the bytes
/// between two `finish` calls are cut into lines on their own. The warnings are those that the calls added, in order.
/// The user values are those that the calls left.
pub fn calls_join()
    ensures { CallsJoin }
{}

/// Reading input files in chunks of any size gives the same as reading them at once. The files are read one after
/// another, each by a new reader that then finishes its last line.
pub fn streams_are_read()
    ensures { StreamsAreRead }
{}

/// User values that are allowed, and are members of their choices, stay so after any list of calls of a reader that all
/// return Ok.
pub fn reading_keeps_places()
    ensures { ReadingKeepsPlaces }
{
    places_hold_what_is_allowed();
}

/// Reading any input files, from no user values of a well-formed tree, leaves allowed user values, even if a line is
/// too long. A failed `feed` keeps allowed user values allowed. (Our own.)
pub fn reading_leaves_allowed_places()
    ensures streams { StreamsLeavePlaces }
    ensures refusals { RefusalsKeepPlaces }
{
    places_hold_what_is_allowed();
}

/// A written unset line is read as an unset line.
pub fn unset_line_read_again()
    ensures { UnsetLineReadAgain }
{}

/// A written set line is read as the same set line, if its value does not end in a blank or a carriage return, which
/// reading would remove.
pub fn set_line_read_again()
    ensures { SetLineReadAgain }
{}

/// A string, quoted and escaped, is read as the same text, if it has at most 65,000 bytes with its quotes.
pub fn string_read_again()
    ensures { StringReadAgain }
{}

/// A written line has at most 65,322 bytes before its LF, so it is never too long to be read again. This holds for a
/// prefix of at most 64 bytes, a name of at most 255, and an escaped string or a number of at most 65,000.
pub fn written_lines_are_short()
    ensures { WrittenLinesAreShort }
{}

/// A value that a line assigns to a symbol is allowed for it.
pub fn assigned_are_allowed()
    ensures { AssignedAreAllowed }
{}

/// In a well-formed tree, every allowed value of a symbol is assigned by some line of at most 65,535 bytes, under every
/// prefix. So `allowed` holds for exactly the values that lines assign.
pub fn allowed_are_assigned()
    ensures { AllowedAreAssigned }
{}
