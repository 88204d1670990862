// When a cut stays where more follows the text, and how it is parted.
ghost use Rattle.std.specs.Prelude.{◌≡◌, ◌+◌, ◌≤◌, List, ◌++◌, ℕ, Option, drop, length, map};
ghost use Rattle.lw_base.specs.declared.token.Token.{Token};
ghost use Rattle.lw_tokens.specs.Cut.{IsCut, IsCutTo};
ghost use Rattle.lw_tokens.specs.Keywords.{AreKeywords};
ghost use Rattle.lw_tokens.specs.Lexicon.{Lexicon};
ghost use Rattle.lw_tokens.specs.NextToken.{Next, IsNextToken};
ghost use Rattle.lw_matching.specs.Parted.{IsParted, moved};
ghost use Rattle.lw_matching.specs.Stays.{NoneBegun, FirstStay, asked, TokensStay};

/// A token stays where no keyword goes on behind the text and the terminals that are asked match the same, and a cut stays up to a place
/// where its tokens stay. What is left of a text behind a place of its cut is cut as it is by itself: the tokens of both make a cut, and
/// where the keywords can be told apart, each cut of the whole text is made so.
pub fn stays()
    ensures next { (lexicon : Lexicon) (text more : List ℕ) → NoneBegun lexicon.keywords text → (found : Option Next) →
        FirstStay lexicon text more (asked lexicon text more found) → IsNextToken lexicon text found → IsNextToken lexicon (text ++ more) found }
    ensures cut { (lexicon : Lexicon) (text more : List ℕ) (to : ℕ) (tokens : List Token) → TokensStay lexicon text more to →
        IsCutTo lexicon text to tokens → IsCutTo lexicon (text ++ more) to tokens }
    ensures within { (lexicon : Lexicon) (text : List ℕ) (to : ℕ) (tokens : List Token) → IsCutTo lexicon text to tokens → to ≤ length text }
    ensures join { (lexicon : Lexicon) (text : List ℕ) (to n : ℕ) (tokens others : List Token) →
        IsCutTo lexicon text to tokens → IsCutTo lexicon (drop to text) n others →
        IsCutTo lexicon text (to + n) (tokens ++ map (moved to) others) }
    ensures whole { (lexicon : Lexicon) (text : List ℕ) (to : ℕ) (tokens others : List Token) →
        IsCutTo lexicon text to tokens → IsCut lexicon (drop to text) others → IsCut lexicon text (tokens ++ map (moved to) others) }
    ensures split { (lexicon : Lexicon) → AreKeywords lexicon.keywords → (text : List ℕ) (to : ℕ) (tokens all : List Token) →
        IsCutTo lexicon text to tokens → IsCut lexicon text all → IsParted lexicon text to tokens all }
{}
