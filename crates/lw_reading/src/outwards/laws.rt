// What a reader may expect of the trees of sentences and of texts.
ghost use Rattle.std.specs.Prelude.{ℕ, ◌<◌, List, All, length};
ghost use Rattle.lw_base.specs.declared.token.Token.{Token};
ghost use Rattle.lw_grammar.specs.declared.grammar.Grammar.{Grammar};
ghost use Rattle.lw_grammar.specs.Marks.{Mark};
ghost use Rattle.lw_reading.specs.Trees.{IsOpenedTree, IsTree};
ghost use Rattle.lw_reading.specs.Reading.{Reads};
ghost use Rattle.lw_reading.specs.declared.parsed.Parsed.TheVariants.{Whole};
ghost use Rattle.lw_tree.specs.Parts.{Parts};
ghost use Rattle.lw_scoping.specs.Outward.{ContainersComeFirst};
ghost use Rattle.lw_reading.specs.Known.{HasKnownTypes, HasOneRoot};

/// In the tree of marks, whole or opened, each container has a smaller number than what stands in it, and there is a root.
pub fn containers_come_first()
    ensures whole { (g : Grammar) (text : List ℕ) (m : List Mark) (seen tokens : List Token) (tree : Parts) → IsTree g text m seen tokens tree →
        ContainersComeFirst tree × (0 < length tree.nodes) }
    ensures begun { (g : Grammar) (text : List ℕ) (m : List Mark) (seen tokens : List Token) (tree : Parts) → IsOpenedTree g text m seen tokens tree →
        ContainersComeFirst tree × (0 < length tree.nodes) }
{}

/// The types of a tree of marks, whole or opened, are types of the grammar.
pub fn types_are_known()
    ensures whole { (g : Grammar) (text : List ℕ) (m : List Mark) (seen tokens : List Token) (tree : Parts) → IsTree g text m seen tokens tree →
        HasKnownTypes g tree }
    ensures begun { (g : Grammar) (text : List ℕ) (m : List Mark) (seen tokens : List Token) (tree : Parts) → IsOpenedTree g text m seen tokens tree →
        HasKnownTypes g tree }
{}

/// The tree of a text has one root, its containers come first, its references stand in its nodes, and its types are known.
pub fn read_trees()
    ensures root { (g : Grammar) (text : List ℕ) (tree : Parts) → Reads g text (Whole tree) → HasOneRoot tree }
    ensures outwards { (g : Grammar) (text : List ℕ) (tree : Parts) → Reads g text (Whole tree) → ContainersComeFirst tree }
    ensures owners { (g : Grammar) (text : List ℕ) (tree : Parts) → Reads g text (Whole tree) → All (λ r. r.owner.0 < length tree.nodes) tree.refs }
    ensures types { (g : Grammar) (text : List ℕ) (tree : Parts) → Reads g text (Whole tree) → HasKnownTypes g tree }
{}
