//! Laws of the user values of each tree. Each is the contract of a function that does nothing.

ghost use Rattle.kc_user.specs.Laws.{EmptyArePlaces, SettingKeepsPlaces, SelectingKeepsPlaces, TextsAreShort};

/// Empty user values, and user values that are set only to allowed values and to members of their choices, hold only such
/// values. So each text in them has at most 65,000 bytes.
pub fn places_hold_what_is_allowed()
    ensures empty { EmptyArePlaces }
    ensures setting { SettingKeepsPlaces }
    ensures selecting { SelectingKeepsPlaces }
    ensures short { TextsAreShort }
{}
