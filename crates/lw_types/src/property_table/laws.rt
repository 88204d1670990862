// What a reader may expect of the properties of types, and of which types are below which.
ghost use Rattle.std.specs.Prelude.{ℕ, ◌≡◌, ◌↔◌, List, [], ◌∷◌, true, false, codes, Contains};
ghost use Rattle.lw_grammar.specs.declared.grammar.Grammar.{Grammar};
ghost use Rattle.lw_grammar.specs.declared.declared_types.ValueKind.TheVariants.{Plain};
ghost use Rattle.lw_grammar.specs.declared.terminal.Primitive.TheVariants.{Text};
ghost use Rattle.lw_grammar.specs.Subtypes.{IsSubtype};
ghost use Rattle.lw_grammar.specs.Worked.{states_by_id, two_ways};
ghost use Rattle.lw_numbers.specs.Numbering.{type_names, property_names};
ghost use Rattle.lw_flow.specs.declared.before.Before.{Before};
ghost use Rattle.lw_flow.specs.Recorded.{AreWaysOf};
ghost use Rattle.lw_types.specs.Having.{AreDeclaredProperties, ArePropertiesOf};
ghost use Rattle.lw_types.specs.Values.{nodes_of, refs_to};
ghost use Rattle.lw_types.specs.Worked.{property, shapes, pairs};
ghost use Rattle.lw_types.specs.declared.property_table.info.PropertyInfo.{PropertyInfo};

/// A type has one list of properties, where it is known what may come before the leaves of rules.
pub fn one_list_of_properties()
    ensures { (g : Grammar) (rows : List (List Before)) (n : ℕ) (a b : List PropertyInfo) → ArePropertiesOf g rows n a → ArePropertiesOf g rows n b → a ≡ b }
{}

/// An interface has what it declares, and then what it extends declares of other names. A union in an attribute stands for its members, and
/// has no properties.
pub fn properties_of_shapes()
    ensures base { AreDeclaredProperties shapes (codes "Base") (property 0 false (Plain Text ∷ []) ∷ []) }
    ensures extending { AreDeclaredProperties shapes (codes "Shape") (property 1 true (nodes_of 0 ∷ []) ∷ property 0 false (refs_to 0 ∷ []) ∷ []) }
    ensures union { (rows : List (List Before)) → ArePropertiesOf shapes rows 2 [] }
{}

/// In the grammar of models with states a model has a name, which is one text, and a list of states, and a state has a name and a list of
/// references to states. No type is below another.
pub fn properties_of_states()
    ensures types { type_names states_by_id ≡ codes "Model" ∷ codes "State" ∷ [] }
    ensures properties { property_names states_by_id ≡ codes "name" ∷ codes "states" ∷ codes "next" ∷ [] }
    ensures model { (rows : List (List Before)) → AreWaysOf states_by_id rows
        → ArePropertiesOf states_by_id rows 0 (property 0 false (Plain Text ∷ []) ∷ property 1 true (nodes_of 1 ∷ []) ∷ []) }
    ensures state { (rows : List (List Before)) → AreWaysOf states_by_id rows
        → ArePropertiesOf states_by_id rows 1 (property 0 false (Plain Text ∷ []) ∷ property 2 true (refs_to 1 ∷ []) ∷ []) }
    ensures below { (one other : List ℕ) → IsSubtype states_by_id one other ↔ (one ≡ other) }
{}

/// A property that is assigned on one of two ways is a property of the type, as is one that is assigned on the other.
pub fn properties_of_two_ways()
    ensures types { type_names two_ways ≡ codes "A" ∷ [] }
    ensures properties { property_names two_ways ≡ codes "b" ∷ codes "d" ∷ [] }
    ensures both { (rows : List (List Before)) → AreWaysOf two_ways rows
        → ArePropertiesOf two_ways rows 0 (property 0 false (Plain Text ∷ []) ∷ property 1 false (Plain Text ∷ []) ∷ []) }
{}

/// Below a union are its members and what is below them: the type of an action is below that of its rule.
pub fn types_below_a_union()
    ensures below { (name : List ℕ) → IsSubtype pairs name (codes "Any") ↔ Contains (codes "Any" ∷ codes "Base" ∷ codes "Leaf" ∷ codes "Pair" ∷ []) name }
{}

/// The type of a rule that is called is below that of the rule that calls it, and the type of one that is assigned is not.
pub fn types_below_a_rule()
    ensures below { (name : List ℕ) → IsSubtype pairs name (codes "Root") ↔ Contains (codes "Root" ∷ codes "Leaf" ∷ codes "Pair" ∷ []) name }
{}

/// What a fragment assigns belongs to the type of the rule that puts it in. What stands before an action belongs to the type before it; what
/// the action takes, and what is assigned behind it, to the type of the action.
pub fn properties_around_an_action()
    ensures types { type_names pairs ≡ codes "Base" ∷ codes "Any" ∷ codes "Root" ∷ codes "Leaf" ∷ codes "Pair" ∷ [] }
    ensures properties { property_names pairs ≡ codes "name" ∷ codes "x" ∷ codes "left" ∷ codes "y" ∷ codes "t" ∷ [] }
    ensures before { (rows : List (List Before)) → AreWaysOf pairs rows → ArePropertiesOf pairs rows 3 (property 4 true (Plain Text ∷ []) ∷ []) }
    ensures behind { (rows : List (List Before)) → AreWaysOf pairs rows
        → ArePropertiesOf pairs rows 4 (property 2 false (nodes_of 3 ∷ []) ∷ property 3 false (Plain Text ∷ []) ∷ []) }
{}

/// An interface has what it declares, and a union nothing. The entry, whose node is that of another rule on one of its ways, has what it assigns
/// on the other way, and nothing that the other rule assigns.
pub fn properties_of_united_types()
    ensures declared { (rows : List (List Before)) → ArePropertiesOf pairs rows 0 (property 0 false (Plain Text ∷ []) ∷ []) }
    ensures union { (rows : List (List Before)) → ArePropertiesOf pairs rows 1 [] }
    ensures entry { (rows : List (List Before)) → AreWaysOf pairs rows → ArePropertiesOf pairs rows 2 (property 1 false (nodes_of 0 ∷ []) ∷ []) }
{}
