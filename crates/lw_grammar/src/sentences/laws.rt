// What a reader may expect of the definitions over grammars, whatever the grammar, and what they say of grammars that are
// written out.
ghost use Rattle.std.specs.Prelude.{◌≡◌, ◌≢◌, ◌∷◌, [], ◌++◌, ℕ, List, AllPairs, codes, map};
ghost use Rattle.std.specs.List.{AllZip};
ghost use Rattle.lw_base.specs.declared.token.Span.{Span};
ghost use Rattle.lw_grammar.specs.declared.grammar.Grammar.{Grammar};
ghost use Rattle.lw_grammar.specs.declared.rule.Rule.{Rule};
ghost use Rattle.lw_grammar.specs.declared.rule.Op.TheVariants.{One};
ghost use Rattle.lw_grammar.specs.declared.rule.Element.TheVariants.{Group};
ghost use Rattle.lw_grammar.specs.declared.terminal.Terminal.{Terminal};
ghost use Rattle.lw_grammar.specs.declared.declared_types.Interface.{Interface};
ghost use Rattle.lw_grammar.specs.declared.declared_types.UnionDef.{UnionDef};
ghost use Rattle.lw_grammar.specs.KindTexts.{IsKindText};
ghost use Rattle.lw_grammar.specs.Kinds.{Kinds, AreKinds, IsKindTerminal, IsKeywordKind, IsTerminalKind, kind_count};
ghost use Rattle.lw_grammar.specs.Leaves as leaf;
ghost use Rattle.lw_grammar.specs.Leaves.{Leaf, HasLeaves, keywords_in, leaves};
ghost use Rattle.lw_grammar.specs.NameRules.{IsNameRule};
ghost use Rattle.lw_grammar.specs.Named.{IsRule, IsTerminal, IsInterface, IsUnion, IsEntry};
ghost use Rattle.lw_grammar.specs.Nodes.{MakesNodes, IsDataType};
ghost use Rattle.lw_grammar.specs.Reached.{RuleCalls, ValueCalls, IsReached};
ghost use Rattle.lw_grammar.specs.Size.{size};
ghost use Rattle.lw_grammar.specs.Subtypes.{HasType, InfersType, IsDeclared, IsSubtype};
ghost use Rattle.lw_grammar.specs.Marks.{Mark, Token};
ghost use Rattle.lw_grammar.specs.Sentences.{IsWhole, Starts};
ghost use Rattle.lw_grammar.specs.Worked.{nowhere, keyword_row, id_call, id_terminal, model_rule, state_rule, by_id, states_by_id, by_name, states_by_name, states_kinds, root_rule, qname_rule, marked_rule, dotted_grammar, dotted_kinds, with_fragment, named_fragment, fragment_grammar, named_interface, t_union, returning_rule, t_twice, two_ways, two_ways_kinds};
ghost use Rattle.lw_grammar.specs.Yields.{Yields};

/// A name means at most one rule or terminal, and at most one interface or union.
pub fn one_meaning()
    ensures rule { (g : Grammar) (name : List ℕ) (r q : ℕ) (one other : Rule) → IsRule g name r one → IsRule g name q other → r ≡ q }
    ensures rule_or_terminal { (g : Grammar) (name : List ℕ) (r t : ℕ) (rule : Rule) (terminal : Terminal) → IsRule g name r rule
        → ¬ IsTerminal g name t terminal }
    ensures interface_or_union { (g : Grammar) (name : List ℕ) (i u : ℕ) (interface : Interface) (union : UnionDef)
        → IsInterface g name i interface → ¬ IsUnion g name u union }
{}

/// A rule has one list of leaves, fragments put in.
pub fn one_leaves()
    ensures { (g : Grammar) (rule : Rule) (a b : List Leaf) → HasLeaves g rule a → HasLeaves g rule b → a ≡ b }
{}

/// A grammar has one list of kinds.
pub fn one_list_of_kinds()
    ensures { (g : Grammar) (a b : Kinds) → AreKinds g a → AreKinds g b → a ≡ b }
{}

/// Of an interface and a union of one name the name means the one that stands first, and is what that one is.
pub fn first_declaration()
    ensures interface { IsInterface (t_twice 35 45) (codes "T") 1 (named_interface (codes "T") 35) }
    ensures no_union { (u : ℕ) (union : UnionDef) → ¬ IsUnion (t_twice 35 45) (codes "T") u union }
    ensures not_below { ¬ IsSubtype (t_twice 35 45) (codes "A") (codes "T") }
    ensures union { IsUnion (t_twice 47 15) (codes "T") 0 (t_union 15) }
    ensures no_interface { (i : ℕ) (interface : Interface) → ¬ IsInterface (t_twice 47 15) (codes "T") i interface }
    ensures below { IsSubtype (t_twice 47 15) (codes "A") (codes "T") }
    ensures declared { IsDeclared (t_twice 35 45) (codes "T") }
    ensures returned { HasType (t_twice 35 45) returning_rule (codes "T") }
    ensures not_inferred { ¬ InfersType (t_twice 35 45) returning_rule (codes "T") }
{}

/// In the grammar of models with states `State` is a rule and no terminal, `ID` a terminal and no rule, and `Model` is the entry.
pub fn names_of_states()
    ensures rule { IsRule states_by_id (codes "State") 1 (state_rule by_id) }
    ensures no_terminal { (t : ℕ) (terminal : Terminal) → ¬ IsTerminal states_by_id (codes "State") t terminal }
    ensures terminal { IsTerminal states_by_id (codes "ID") 1 id_terminal }
    ensures no_rule { (r : ℕ) (rule : Rule) → ¬ IsRule states_by_id (codes "ID") r rule }
    ensures entry { IsEntry states_by_id 0 model_rule }
    ensures no_entry { ¬ IsEntry states_by_id 1 (state_rule by_id) }
    ensures type_ { HasType states_by_id (state_rule by_id) (codes "State") }
    ensures other_type { ¬ HasType states_by_id (state_rule by_id) (codes "Model") }
    ensures inferred { InfersType states_by_id (state_rule by_id) (codes "State") }
    ensures undeclared { ¬ IsDeclared states_by_id (codes "State") }
    ensures itself { IsSubtype states_by_id (codes "State") (codes "State") }
    ensures not_below { ¬ IsSubtype states_by_id (codes "State") (codes "Model") }
    ensures size { size states_by_id ≡ 23 }
{}

/// A state is named by `ID`, so `[State]` reads its text by that.
pub fn name_rule_of_states()
    ensures by_id { IsNameRule states_by_name (codes "State") (codes "ID") }
    ensures no_other { (called : List ℕ) → IsNameRule states_by_name (codes "State") called → called ≡ codes "ID" }
    ensures calls { ValueCalls states_by_name by_name (codes "ID") }
    ensures calls_no_other { ¬ ValueCalls states_by_name by_name (codes "State") }
{}

/// A model calls states, a state calls no model, and states are reached.
pub fn calls_of_states()
    ensures calls { RuleCalls states_by_id model_rule (codes "State") }
    ensures not_back { ¬ RuleCalls states_by_id (state_rule by_id) (codes "Model") }
    ensures reached { IsReached states_by_id 1 }
{}

/// The kinds of the grammar of models with states: keywords by their first use, then terminals.
pub fn kinds_of_states()
    ensures keywords { keywords_in (state_rule by_id).body ≡ codes "state" ∷ codes "to" ∷ codes "end" ∷ [] }
    ensures kinds { AreKinds states_by_id states_kinds }
    ensures count { kind_count states_kinds ≡ 6 }
    ensures keyword { IsKeywordKind states_kinds (codes "to") 2 }
    ensures no_keyword { ¬ IsKeywordKind states_kinds (codes "to") 3 }
    ensures terminal { IsTerminalKind states_by_id states_kinds (codes "ID") 5 }
    ensures no_terminal { (k : ℕ) → ¬ IsTerminalKind states_by_id states_kinds (codes "State") k }
    ensures told { IsKindText states_by_id 0 (codes "'model'") }
    ensures none_told { (text : List ℕ) → ¬ IsKindText states_by_id 6 text }
{}

/// A rule of terminals and keywords alone is a data type rule, and one that calls a rule that makes nodes is none.
pub fn data_type_rules()
    ensures text { IsDataType dotted_grammar qname_rule }
    ensures nodes { MakesNodes dotted_grammar marked_rule }
    ensures no_nodes { ¬ MakesNodes dotted_grammar qname_rule }
    ensures no_text { ¬ IsDataType dotted_grammar root_rule }
{}

/// What an action makes, and what is called unassigned, is below the type of the rule.
pub fn inferred_subtypes()
    ensures below { IsSubtype dotted_grammar (codes "Other") (codes "Root") }
    ensures not_above { ¬ IsSubtype dotted_grammar (codes "Root") (codes "Other") }
{}

/// A rule that nothing calls is not reached, and a terminal that only such a rule calls is no kind.
pub fn kinds_of_reached_rules()
    ensures reached { IsReached dotted_grammar 1 }
    ensures not_reached { ¬ IsReached dotted_grammar 3 }
    ensures no_kind { ¬ IsKindTerminal dotted_grammar 1 }
    ensures kinds { AreKinds dotted_grammar dotted_kinds }
    ensures number { IsTerminalKind dotted_grammar dotted_kinds (codes "ID") 2 }
    ensures no_number { (k : ℕ) → ¬ IsTerminalKind dotted_grammar dotted_kinds (codes "INT") k }
    ensures told { IsKindText dotted_grammar 2 (codes "ID") }
    ensures none_told { (text : List ℕ) → ¬ IsKindText dotted_grammar 4 text }
{}

/// The leaves of a fragment stand for its call, and one that calls itself is looked into once. It has no type.
pub fn fragments_put_in()
    ensures leaves { HasLeaves fragment_grammar with_fragment (leaf.Assign (codes "name") One id_call nowhere ∷ leaf.Keyword (codes "x") nowhere ∷ []) }
    ensures not_its_own { ¬ HasLeaves fragment_grammar with_fragment (leaves with_fragment.body) }
    ensures no_type { (name : List ℕ) → ¬ HasType fragment_grammar named_fragment name }
{}

/// A row of keywords that differ yields its tokens and nothing else.
pub fn keyword_rows()
    ensures yields { (g : Grammar) (kinds : Kinds) (ws : List (List ℕ × Span)) (ks : List ℕ) (s : Span)
        → AllZip (λ w k. IsKeywordKind kinds w.0 k) ws ks → Yields g kinds (Group (keyword_row ws) s) (map Token ks) }
    ensures no_other { (g : Grammar) (kinds : Kinds) → AllPairs (λ a b. a ≢ b) kinds.keywords
        → (ws : List (List ℕ × Span)) (ks : List ℕ) (s : Span) (m : List Mark) → AllZip (λ w k. IsKeywordKind kinds w.0 k) ws ks
        → Yields g kinds (Group (keyword_row ws) s) m → m ≡ map Token ks }
{}

/// What a start begins with is a start. Of two ways that begin and end alike each is a sentence, their common beginning starts
/// one, and their ends do not follow it.
pub fn starts_of_sentences()
    ensures front { (g : Grammar) (kinds : Kinds) (front more : List ℕ) → Starts g kinds (front ++ more) → Starts g kinds front }
    ensures kinds { AreKinds two_ways two_ways_kinds }
    ensures whole { IsWhole two_ways two_ways_kinds (0 ∷ 3 ∷ 2 ∷ []) }
    ensures starts { Starts two_ways two_ways_kinds (0 ∷ []) }
    ensures no_start { ¬ Starts two_ways two_ways_kinds (0 ∷ 2 ∷ []) }
    ensures not_whole { ¬ IsWhole two_ways two_ways_kinds (0 ∷ 2 ∷ []) }
{}
