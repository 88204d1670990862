// How large a grammar may be, as a number.
ghost use Rattle.std.specs.Prelude.{◌≡◌};

use crate::LARGEST_GRAMMAR;

/// The greatest size of a grammar is this number. Definitions go by the name of the constant.
pub fn limit_of_grammars()
    ensures { LARGEST_GRAMMAR ≡ 65_535 }
{}
