// What a reader may expect of a stream as it goes on, and how long one may be.
ghost use Rattle.std.specs.Prelude.{◌≡◌, List, ℕ};
ghost use Rattle.lw_frame.specs.Growing.{KeepsBodies, KeepsFault};

use crate::{LONGEST_BODY, LONGEST_HEADER_PART, LONGEST_SESSION};

/// The bodies that a stream has stay as it goes on: others come behind them. A fault that does not come
/// from the end of the stream is there for good, and no body comes behind it.
pub fn streams_grow()
    ensures bodies { (bytes more : List ℕ) → KeepsBodies bytes more }
    ensures fault { (bytes more : List ℕ) → KeepsFault bytes more }
{}

/// The limits of a stream are these numbers, in bytes. Definitions go by the names of the constants.
pub fn limits_of_streams()
    ensures session { LONGEST_SESSION ≡ 1_099_511_627_776 }
    ensures header_part { LONGEST_HEADER_PART ≡ 4_096 }
    ensures body { LONGEST_BODY ≡ 16_777_216 }
{}
