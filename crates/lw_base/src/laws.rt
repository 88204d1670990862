// The limits that several crates keep, as numbers.
ghost use Rattle.std.specs.Prelude.{◌≡◌};

use crate::{GREATEST_WORKSPACE, LONGEST_DOCUMENT, LONGEST_TEXT, MOST_DOCUMENTS};

/// The limits that several crates keep are these numbers. Definitions go by the names of the constants, and this law says what they are.
pub fn limits_of_all()
    ensures text { LONGEST_TEXT ≡ 67_108_864 }
    ensures documents { MOST_DOCUMENTS ≡ 65_536 }
    ensures workspace { GREATEST_WORKSPACE ≡ 9_999 }
    ensures document { LONGEST_DOCUMENT ≡ 2_097_152 }
{}
