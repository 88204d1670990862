// What a reader of the definitions would expect of them: each function has no body and says one law.
ghost use Rattle.std.specs.Prelude.{◌≡◌, ◌≤◌, ℕ, List, Result, length, All};
ghost use Rattle.std.specs.Str.{IsCharBoundary, IsUtf8};
ghost use Rattle.lw_text.specs.Changes.{Changes, IsAfter};
ghost use Rattle.lw_text.specs.Offset.{IsOffset};
ghost use Rattle.lw_text.specs.Position.{IsInsideBreak, IsPositionIn};
ghost use Rattle.lw_text.specs.declared.change.Change.{Change};
ghost use Rattle.lw_text.specs.declared.change.EditFault.{EditFault};
ghost use Rattle.lw_text.specs.declared.place.Pos.{Pos};
ghost use Rattle.lw_text.specs.declared.units.Encoding.{Encoding};

/// A place has one position.
pub fn a_place_has_one_position()
    ensures { (enc : Encoding) (text : List ℕ) (offset : ℕ) (at other : Pos) →
        IsPositionIn enc text offset at → IsPositionIn enc text offset other → at ≡ other }
{}

/// A position means one place.
pub fn a_position_means_one_place()
    ensures one { (enc : Encoding) (text : List ℕ) (at : Pos) (offset other : ℕ) →
        IsOffset enc text at offset → IsOffset enc text at other → offset ≡ other }
    ensures some { (enc : Encoding) (text : List ℕ) (at : Pos) → IsUtf8 text →
        (offset : ℕ) × (offset ≤ length text) × IsCharBoundary text offset × IsOffset enc text at offset }
{}

/// The position of a place at a character's start, and not inside `\r\n`, means that place.
pub fn positions_lead_back()
    ensures { (enc : Encoding) (text : List ℕ) (offset : ℕ) (at : Pos) → IsUtf8 text →
        IsCharBoundary text offset → ¬ (IsInsideBreak text offset) →
        IsPositionIn enc text offset at → IsOffset enc text at offset }
{}

/// Of two positions the later one does not mean an earlier place. So what a change takes out of a text
/// stands from the one place on up to the other.
pub fn positions_keep_their_order()
    ensures { (enc : Encoding) (text : List ℕ) (at later : Pos) (offset end : ℕ) → IsUtf8 text → ¬ (IsAfter at later) →
        IsOffset enc text at offset → IsOffset enc text later end → offset ≤ end }
{}

/// A list of changes makes one text of a text, or has one fault.
pub fn changes_have_one_outcome()
    ensures one { (enc : Encoding) (text : List ℕ) (changes : List Change) (outcome other : Result (List ℕ) EditFault) →
        Changes enc text changes outcome → Changes enc text changes other → outcome ≡ other }
    ensures some { (enc : Encoding) (text : List ℕ) (changes : List Change) → IsUtf8 text → All (λ change. IsUtf8 change.text) changes →
        (outcome : Result (List ℕ) EditFault) × Changes enc text changes outcome }
{}
