// What a reader may expect of places, definitions and references, whatever the grammar and the texts.
ghost use Rattle.std.specs.Prelude.{◌≡◌, ℕ, List, Bool, Option};
ghost use Rattle.lw_grammar.specs.declared.grammar.Grammar.{Grammar};
ghost use Rattle.lw_reading.specs.Laws.{IsReadOneWay};
ghost use Rattle.lw_link_rules.specs.Links.{IsNumberBelow, Texts};
ghost use Rattle.lw_scoping.specs.Links.{Link, Trees};
ghost use Rattle.lw_tree.specs.Parts.{Parts};
ghost use Rattle.lw_places.specs.Asked.{AreReferences, IsDefinition};
ghost use Rattle.lw_places.specs.Mentions.{AreMentionsOf, IsMeantAt, Mention};
ghost use Rattle.lw_places.specs.Places.{IsPlaceAt};
ghost use Rattle.lw_places.specs.declared.place.Place.{Place};

/// At an offset of a tree one thing stands at most, and it leads to one node at most, which has one list of mentions at most.
pub fn one_place()
    ensures place { (tree : Parts) (offset : ℕ) (place other : Option Place) → IsPlaceAt tree offset place → IsPlaceAt tree offset other → place ≡ other }
    ensures meant { (g : Grammar) (trees : Trees) (address : List ℕ) (offset : ℕ) (link other : Link) →
        IsMeantAt (IsNumberBelow g) trees address offset link → IsMeantAt (IsNumberBelow g) trees address offset other → link ≡ other }
    ensures mentions { (g : Grammar) (trees : Trees) (declaration : Bool) (target : List ℕ × ℕ) (mentions others : List Mention) →
        AreMentionsOf (IsNumberBelow g) trees declaration target mentions → AreMentionsOf (IsNumberBelow g) trees declaration target others → mentions ≡ others }
{}

/// By a grammar by which a text is read in one way, what is asked for at an offset has one answer at most.
pub fn one_reply()
    ensures definition { (g : Grammar) → IsReadOneWay g → (texts : Texts) (address : List ℕ) (offset : ℕ) (m other : Option Mention) →
        IsDefinition g texts address offset m → IsDefinition g texts address offset other → m ≡ other }
    ensures references { (g : Grammar) → IsReadOneWay g → (texts : Texts) (address : List ℕ) (offset : ℕ) (declaration : Bool) (mentions others : Option (List Mention)) →
        AreReferences g texts address offset declaration mentions → AreReferences g texts address offset declaration others → mentions ≡ others }
{}

/// What is asked for depends on nothing but which text stands at each address.
pub fn only_texts_matter()
    ensures definition { (g : Grammar) (texts others : Texts) → ((a : List ℕ) → texts a ≡ others a) → (address : List ℕ) (offset : ℕ) (m : Option Mention) →
        IsDefinition g texts address offset m → IsDefinition g others address offset m }
    ensures references { (g : Grammar) (texts others : Texts) → ((a : List ℕ) → texts a ≡ others a) → (address : List ℕ) (offset : ℕ) (declaration : Bool)
        (mentions : Option (List Mention)) → AreReferences g texts address offset declaration mentions → AreReferences g others address offset declaration mentions }
{}
