// What a reader may expect of look-ahead, whatever the grammar.
ghost use Rattle.std.specs.Prelude.{◌≡◌};

use crate::points::MOST_STRINGS;

/// The limit of the strings of all choices is this number. Definitions go by the name of the constant.
pub fn limit_of_strings()
    ensures { MOST_STRINGS ≡ 200_000 }
{}
