// What a reader of the definitions would expect of them: each function has no body and says one law.
ghost use Rattle.std.specs.Prelude.{◌≡◌, ◌++◌, ◌==◌, ◌||◌, ℕ, List, [], ◌∷◌, Contains, IsUtf8, codes, not};
ghost use Rattle.std.specs.Char.{is_ascii_alphanumeric};
ghost use Rattle.std.specs.List.{list_any};
ghost use Rattle.percent_encoding.specs.AsciiSet.{should_percent_encode};
ghost use Rattle.lw_io.specs.Paths as spec;

use crate::paths::paths::ESCAPED;

/// An address has one path at most.
pub fn one_path()
    ensures { (address path other : List ℕ) → spec.IsPathOf address path → spec.IsPathOf address other → path ≡ other }
{}

/// The address of a path that begins with a slash, is UTF-8 and has no byte 0 has that path.
pub fn addresses_have_their_paths()
    ensures { (path rest : List ℕ) → path ≡ codes "/" ++ rest → IsUtf8 path → ¬ Contains path 0 → spec.IsPathOf (spec.address_of path) path }
{}

/// Every byte is escaped but ASCII letters, digits and `/`, `-`, `.`, `_` and `~`.
pub fn escaped_bytes()
    ensures { (byte : ℕ) → should_percent_encode ESCAPED byte ≡ not (is_ascii_alphanumeric byte || list_any (λ kept. byte == kept) (codes "/-._~")) }
{}

/// An escape and a query, another scheme, bytes that are no UTF-8, and what is escaped.
pub fn paths_and_addresses_written_out()
    ensures escape { spec.IsPathOf (codes "file:///a%20b?x") (codes "/a b") }
    ensures scheme { spec.HasNoPath (codes "untitled:x") }
    ensures bytes { spec.HasNoPath (codes "file:///%ff") }
    ensures address { spec.address_of (codes "/a b#") ≡ codes "file:///a%20b%23" }
{}
