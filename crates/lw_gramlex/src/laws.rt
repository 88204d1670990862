// What a reader may expect of the cut of a grammar file, whatever its text.
ghost use Rattle.std.specs.Prelude.{◌≡◌, ◌≢◌, ◌++◌, ℕ, List, codes};
ghost use Rattle.std.specs.Str.{IsUtf8};
ghost use Rattle.lw_gramlex.specs.declared.token.FileKind.{FileKind};
ghost use Rattle.lw_gramlex.specs.declared.token.FileKind.TheVariants.{Other};
ghost use Rattle.lw_gramlex.specs.declared.token.FileToken.{FileToken};
ghost use Rattle.lw_gramlex.specs.FileTokens.{IsFileToken};
ghost use Rattle.lw_gramlex.specs.FileCut.{IsFileCut};

/// Every text has a cut, and only one.
pub fn every_text_has_one_cut()
    ensures one { (text : List ℕ) → IsUtf8 text → (tokens : List FileToken) × IsFileCut text tokens }
    ensures only { (text : List ℕ) (a b : List FileToken) → IsFileCut text a → IsFileCut text b → a ≡ b }
{}

/// `//` begins a comment and no token. A `/*` that nothing closes begins no comment: its slash is a token that can follow
/// nowhere.
pub fn comments_and_slashes()
    ensures line { (rest : List ℕ) (kind : FileKind) (n : ℕ) → ¬ IsFileToken (codes "//" ++ rest) kind n }
    ensures block { (rest : List ℕ) → ((inside after : List ℕ) → rest ≢ inside ++ codes "*/" ++ after) →
        IsFileToken (codes "/*" ++ rest) Other 1 }
{}
