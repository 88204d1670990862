// What a reader may expect of the faults of a grammar, and where they are in grammars that are written out.
ghost use Rattle.std.specs.Prelude.{ℕ, ◌≡◌, ◌<◌, ◌⊎◌, [], ◌∷◌, List, Some, true, false, codes, slice_get};
ghost use Rattle.lw_base.specs.declared.token.Span.{Span};
ghost use Rattle.lw_grammar.specs.declared.rule.Element.TheVariants.{Call, Assign, Act, Group, Maybe, Many};
ghost use Rattle.lw_grammar.specs.declared.rule.Op.TheVariants.{One, Add, Flag};
ghost use Rattle.lw_grammar.specs.declared.rule.Value0.TheVariants as value;
ghost use Rattle.lw_grammar.specs.declared.rule.RuleResult.TheVariants.{Own, Returns, Gives, Infers};
ghost use Rattle.lw_grammar.specs.declared.terminal.Primitive.TheVariants.{Text, Number, Boolean};
ghost use Rattle.lw_grammar.specs.declared.terminal.TermElement.TheVariants as term;
ghost use Rattle.lw_grammar.specs.declared.declared_types.Member.TheVariants.{Named, Plain, Refers, Literal};
ghost use Rattle.lw_grammar.specs.declared.fault.GrammarFault.{GrammarFault};
ghost use Rattle.lw_grammar.specs.declared.grammar.Grammar.{Grammar};
ghost use Rattle.lw_grammar.specs.declared.rule.Rule.{Rule};
ghost use Rattle.lw_grammar.specs.declared.terminal.Terminal.{Terminal};
ghost use Rattle.lw_grammar.specs.declared.declared_types.Interface.{Interface};
ghost use Rattle.lw_grammar.specs.declared.declared_types.UnionDef.{UnionDef};
ghost use Rattle.lw_grammar.specs.Named.{IsRule, IsTerminal, IsInterface, IsUnion, declared_rule, declared_terminal, declared_interface, declared_union};
ghost use Rattle.lw_faults.specs.Attributes.{TakesKind};
ghost use Rattle.lw_faults.specs.Attributes as kind;
ghost use Rattle.lw_faults.specs.Derivations.{LeftRecursion, ReadsNothing, RepeatsNothing, NeverEnds};
ghost use Rattle.lw_faults.specs.Faults.{IsTypeFault, IsCheckFault, AreTypeFaults, AreCheckFaults};
ghost use Rattle.lw_faults.specs.Worked.{StandsAlone, StandsNowhere, place, no_place, left_recursive, right_recursive, x_id, calling_b, alone, repeating, a_a, endless, keyword_of, makes_b, takes_b, two_parts, action_and_word, acts_in_fragment, with_node, node_behind, node_before, node_and_word, puts, with_attribute, extending_type, united, x_by, calls_id, i_reference, with_endless, twice, unknown_twice, making_s, types_alone, extends, a_extending, b_extending, union_of, fragment_calling, terminal_calling, of_rules, plain_rule, in_file, a_entry, b_entry, entry_fragment, id_element, resulting, with_terminal, calling_terminal, crossing, assigning, y_id, node_rule, fragment_rule, x_value, behind_a, beside_interface, makes_declared, by_its_name, many_rules, naming_terminal};
ghost use Rattle.lw_faults.specs.Names.{IsSecondDeclaration, Duplicate, UnknownRule, UnknownType, NoNameRule};
ghost use Rattle.lw_faults.specs.BadCalls.{BadCall, BadAssignment};
ghost use Rattle.lw_faults.specs.Entries.{NoEntry, SecondEntry, EntryMakesNoNode, TooManyRules};
ghost use Rattle.lw_faults.specs.DataTypes.{MixedDataTypeRule};
ghost use Rattle.lw_faults.specs.Circles.{CircularType, CircularCall};
ghost use Rattle.lw_faults.specs.Properties.{UnknownProperty, WrongPropertyForm, MixedProperty, NotASubtype};
ghost use Rattle.lw_faults.specs.Misplaced.{MisplacedAction, MisplacedCall};

/// A grammar has one list of faults in each phase.
pub fn one_list_of_faults()
    ensures types { (g : Grammar) (a b : List GrammarFault) → AreTypeFaults g a → AreTypeFaults g b → a ≡ b }
    ensures checks { (g : Grammar) (a b : List GrammarFault) → AreCheckFaults g a → AreCheckFaults g b → a ≡ b }
{}

/// No fault is of both phases. Where a fragment or a terminal calls itself, what rules read and do is not looked at.
pub fn phases()
    ensures apart { (g : Grammar) (f : GrammarFault) → IsTypeFault g f → ¬ IsCheckFault g f }
    ensures circles_first { (g : Grammar) (file : ℕ) (s : Span) (name : List ℕ) (f : GrammarFault) → CircularCall g file s name → IsCheckFault g f
        → (f.number < 7) ⊎ (12 < f.number) }
{}

/// A rule that calls itself behind a fragment is left recursive where the fragment can read nothing.
pub fn left_recursion()
    ensures behind_nothing { StandsAlone (LeftRecursion left_recursive) 0 (place 16 17) (codes "A") }
    ensures behind_a_token { StandsNowhere (LeftRecursion right_recursive) }
{}

/// A rule that is called reads a token on every way; the entry rule need not.
pub fn rules_that_read_nothing()
    ensures optional { StandsAlone (ReadsNothing (calling_b (Maybe x_id no_place))) 0 (place 24 25) (codes "B") }
    ensures always { StandsNowhere (ReadsNothing (calling_b x_id)) }
    ensures entry { StandsNowhere (ReadsNothing (alone (Maybe x_id no_place))) }
{}

/// What is repeated reads a token each time.
pub fn repeated_nothing()
    ensures optional { StandsAlone (RepeatsNothing (repeating (Maybe x_id no_place))) 0 (place 19 27) (codes "A") }
    ensures always { StandsNowhere (RepeatsNothing (repeating x_id)) }
{}

/// A rule that calls itself has to have a way without that call.
pub fn rules_without_end()
    ensures always { StandsAlone (NeverEnds (endless a_a)) 0 (place 16 17) (codes "A") }
    ensures optional { StandsNowhere (NeverEnds (endless (Maybe a_a no_place))) }
{}

/// An action that makes the node is the first that a rule does, and one that takes the node so far is not. Keywords do not count, and
/// what a fragment does stands in the fragment.
pub fn misplaced_actions()
    ensures behind { StandsAlone (MisplacedAction (two_parts x_id (Act (makes_b (place 24 33))))) 0 (place 24 33) (codes "A") }
    ensures before { (s : Span) → StandsNowhere (MisplacedAction (two_parts (Act (makes_b s)) x_id)) }
    ensures behind_keyword { (s : Span) → StandsNowhere (MisplacedAction (two_parts (keyword_of (codes "k")) (Act (makes_b s)))) }
    ensures repeated { StandsAlone (MisplacedAction (alone (Many action_and_word no_place))) 0 (place 20 29) (codes "A") }
    ensures optional { StandsNowhere (MisplacedAction (alone (Maybe action_and_word no_place))) }
    ensures takes_none { StandsAlone (MisplacedAction (two_parts (Act (takes_b (place 19 38))) x_id)) 0 (place 19 38) (codes "A") }
    ensures takes_some { (s : Span) → StandsNowhere (MisplacedAction (two_parts x_id (Act (takes_b s)))) }
    ensures in_fragment { StandsAlone (MisplacedAction acts_in_fragment) 0 (place 39 48) (codes "F") }
{}

/// A rule that makes nodes is called before anything is put into the node. A terminal may be called anywhere.
pub fn misplaced_calls()
    ensures behind { StandsAlone (MisplacedCall (with_node (Group node_behind no_place))) 0 (place 24 25) (codes "B") }
    ensures before { StandsNowhere (MisplacedCall (with_node (Group node_before no_place))) }
    ensures repeated { StandsAlone (MisplacedCall (with_node (Many node_and_word no_place))) 0 (place 20 21) (codes "B") }
    ensures optional { StandsNowhere (MisplacedCall (with_node (Maybe node_and_word no_place))) }
    ensures token { (s : Span) → StandsNowhere (MisplacedCall (two_parts x_id (Call (codes "ID") s))) }
{}

/// A declared type has the properties that it and what it extends declare. A union has none. What a fragment puts in is looked at, even
/// where the fragment never ends.
pub fn unknown_properties()
    ensures undeclared { StandsAlone (UnknownProperty (with_attribute false (Plain Text) (Assign (codes "y") One calls_id (place 55 59)))) 0 (place 55 59) (codes "y") }
    ensures declared { (s : Span) → StandsNowhere (UnknownProperty (with_attribute false (Plain Text) (x_by One calls_id s))) }
    ensures extended { (s : Span) → StandsNowhere (UnknownProperty (extending_type (x_by One calls_id s))) }
    ensures union_ { StandsAlone (UnknownProperty (united (x_by One calls_id (place 67 71)))) 0 (place 67 71) (codes "x") }
    ensures endless { StandsAlone (UnknownProperty (with_endless (place 70 74))) 0 (place 70 74) (codes "y") }
{}

/// What is put into a declared property has its form: a list by `+=`, `boolean` by `?=`, and what is referred to by a cross-reference.
pub fn property_forms()
    ensures one_into_list { StandsAlone (WrongPropertyForm (with_attribute true (Plain Text) (x_by One calls_id (place 57 61)))) 0 (place 57 61) (codes "x") }
    ensures added_to_list { (s : Span) → StandsNowhere (WrongPropertyForm (with_attribute true (Plain Text) (x_by Add calls_id s))) }
    ensures added_to_one { StandsAlone (WrongPropertyForm (with_attribute false (Plain Text) (x_by Add calls_id (place 55 60)))) 0 (place 55 60) (codes "x") }
    ensures one { (s : Span) → StandsNowhere (WrongPropertyForm (with_attribute false (Plain Text) (x_by One calls_id s))) }
    ensures flag_into_text { StandsAlone (WrongPropertyForm (with_attribute false (Plain Text) (x_by Flag (value.Keyword (codes "k") no_place) (place 55 61)))) 0 (place 55 61) (codes "x") }
    ensures flag { (s : Span) → StandsNowhere (WrongPropertyForm (with_attribute false (Plain Boolean) (x_by Flag (value.Keyword (codes "k") no_place) s))) }
    ensures text_for_reference { StandsAlone (WrongPropertyForm (with_attribute false (Refers (codes "I") no_place) (x_by One calls_id (place 51 55)))) 0 (place 51 55) (codes "x") }
    ensures reference_for_text { StandsAlone (WrongPropertyForm (with_attribute false (Plain Text) (x_by One i_reference (place 55 63)))) 0 (place 55 63) (codes "x") }
    ensures reference { (s : Span) → StandsNowhere (WrongPropertyForm (with_attribute false (Refers (codes "I") no_place) (x_by One i_reference s))) }
{}

/// A member that names the type of a data type rule takes every text, as `string` does, and so does a union that has such a member.
pub fn members_of_texts()
    ensures string { TakesKind (resulting Own [] id_element) (Named (codes "A") no_place) (kind.Plain Text) }
    ensures of_rule { (type_name : List ℕ) → TakesKind (resulting Own [] id_element) (Named (codes "A") no_place) (kind.TextsOf type_name) }
    ensures number { ¬ TakesKind (resulting Own [] id_element) (Named (codes "A") no_place) (kind.Plain Number) }
    ensures node { ¬ TakesKind (resulting Own [] x_id) (Named (codes "A") no_place) (kind.Plain Text) }
    ensures union { TakesKind (resulting Own (union_of (Named (codes "A") no_place) ∷ []) id_element) (Named (codes "U") no_place) (kind.Plain Text) }
{}

/// A property of an inferred type is a list each time that something is put into it, or never. Of an unknown type that is not asked.
pub fn mixed_properties()
    ensures one_then_list { StandsAlone (MixedProperty (twice One Add (place 24 29))) 0 (place 24 29) (codes "x") }
    ensures list_then_one { StandsAlone (MixedProperty (twice Add One (place 25 29))) 0 (place 25 29) (codes "x") }
    ensures ones { StandsNowhere (MixedProperty (twice One One (place 24 28))) }
    ensures lists { StandsNowhere (MixedProperty (twice Add Add (place 25 30))) }
    ensures unknown { StandsNowhere (MixedProperty unknown_twice) }
{}

/// A rule that returns a declared type makes nodes of it and of what is below it.
pub fn types_that_are_not_below()
    ensures apart { StandsAlone (NotASubtype (making_s [] (place 59 62))) 0 (place 59 62) (codes "S") }
    ensures below { (s : Span) → StandsNowhere (NotASubtype (making_s ((codes "T", no_place) ∷ []) s)) }
{}

/// No interface extends itself or what is no interface, and no union is a member of itself. A union may have an interface as a member that
/// extends it: the interface alone is told.
pub fn circular_types()
    ensures itself { StandsAlone (CircularType (types_alone (a_extending (extends (codes "A")) ∷ []) [])) 0 (place 20 21) (codes "A") }
    ensures first_of_two { CircularType (types_alone (a_extending (extends (codes "B")) ∷ b_extending (extends (codes "A")) ∷ []) []) 0 (place 20 21) (codes "A") }
    ensures second_of_two { CircularType (types_alone (a_extending (extends (codes "B")) ∷ b_extending (extends (codes "A")) ∷ []) []) 0 (place 45 46) (codes "B") }
    ensures other { StandsNowhere (CircularType (types_alone (a_extending (extends (codes "B")) ∷ b_extending [] ∷ []) [])) }
    ensures union_ { StandsAlone (CircularType (types_alone [] (union_of (Named (codes "U") no_place) ∷ []))) 0 (place 15 16) (codes "U") }
    ensures references { StandsNowhere (CircularType (types_alone [] (union_of (Refers (codes "U") no_place) ∷ []))) }
    ensures no_interface { StandsAlone (CircularType (types_alone (a_extending (extends (codes "U")) ∷ []) (union_of (Literal (codes "a")) ∷ []))) 0 (place 20 21) (codes "A") }
    ensures member_extends { StandsAlone (CircularType (types_alone (a_extending (extends (codes "U")) ∷ []) (union_of (Named (codes "A") no_place) ∷ []))) 0 (place 20 21) (codes "A") }
    ensures unknown { StandsNowhere (CircularType (types_alone (a_extending (extends (codes "Z")) ∷ []) [])) }
{}

/// No fragment calls itself through fragments, and no terminal calls itself. A fragment may call a rule that calls it.
pub fn circular_calls()
    ensures fragment_ { StandsAlone (CircularCall (fragment_calling (codes "F"))) 0 (place 31 32) (codes "F") }
    ensures through_a_rule { StandsNowhere (CircularCall (fragment_calling (codes "A"))) }
    ensures terminal { StandsAlone (CircularCall (terminal_calling (codes "T"))) 0 (place 34 35) (codes "T") }
    ensures other_terminal { StandsNowhere (CircularCall (terminal_calling (codes "ID"))) }
{}

/// The root file has one entry rule, which makes a node. What an imported file marks as an entry is none.
pub fn entries()
    ensures none { StandsAlone (NoEntry (of_rules (plain_rule (codes "A") no_place x_id ∷ []))) 0 no_place (codes "G") }
    ensures imported { StandsAlone (NoEntry (of_rules (in_file 1 a_entry ∷ []))) 0 no_place (codes "G") }
    ensures one { StandsNowhere (NoEntry (of_rules (a_entry ∷ []))) }
    ensures two { StandsAlone (SecondEntry (of_rules (a_entry ∷ b_entry ∷ []))) 0 (place 31 32) (codes "B") }
    ensures one_imported { StandsNowhere (SecondEntry (of_rules (a_entry ∷ in_file 1 b_entry ∷ []))) }
    ensures text { StandsAlone (EntryMakesNoNode (alone id_element)) 0 (place 16 17) (codes "A") }
    ensures fragment_ { StandsAlone (EntryMakesNoNode (of_rules (entry_fragment ∷ []))) 0 (place 25 26) (codes "A") }
    ensures node { StandsNowhere (EntryMakesNoNode (alone x_id)) }
{}

/// A rule that returns a primitive type makes no nodes; a data type rule infers no type, and returns none of nodes.
pub fn data_types()
    ensures nodes_as_text { StandsAlone (MixedDataTypeRule (resulting (Gives Text) [] x_id)) 0 (place 16 17) (codes "A") }
    ensures text { StandsNowhere (MixedDataTypeRule (resulting (Gives Text) [] id_element)) }
    ensures inferred { StandsAlone (MixedDataTypeRule (resulting (Infers (codes "B") no_place) [] id_element)) 0 (place 16 17) (codes "A") }
    ensures inferred_node { StandsNowhere (MixedDataTypeRule (resulting (Infers (codes "B") no_place) [] x_id)) }
    ensures nodes_by_union { StandsAlone (MixedDataTypeRule (resulting (Returns (codes "U") no_place) (union_of (Named (codes "A") no_place) ∷ []) id_element)) 0 (place 16 17) (codes "A") }
    ensures texts_by_union { StandsNowhere (MixedDataTypeRule (resulting (Returns (codes "U") no_place) (union_of (Literal (codes "a")) ∷ []) id_element)) }
{}

/// A rule calls no terminal that is hidden or a fragment, nor does a cross-reference by the name rule of its type; a terminal calls no rule; a range
/// goes up, and a cross-reference reads no node.
pub fn bad_calls()
    ensures hidden { StandsAlone (BadCall (calling_terminal true false)) 0 (place 21 22) (codes "T") }
    ensures fragment_ { StandsAlone (BadCall (calling_terminal false true)) 0 (place 21 22) (codes "T") }
    ensures token { StandsNowhere (BadCall (calling_terminal false false)) }
    ensures implicit { BadCall (naming_terminal true false (place 28 31)) 0 (place 28 31) (codes "T") }
    ensures implicit_fragment { BadCall (naming_terminal false true (place 28 31)) 0 (place 28 31) (codes "T") }
    ensures of_rule { StandsAlone (BadCall (with_terminal (term.Call (codes "A") (place 37 38)))) 0 (place 37 38) (codes "A") }
    ensures of_terminal { StandsNowhere (BadCall (with_terminal (term.Call (codes "ID") no_place))) }
    ensures down { StandsAlone (BadCall (with_terminal (term.Range (codes "b") (codes "a") (place 37 45)))) 0 (place 37 45) (codes "T") }
    ensures two_characters { StandsAlone (BadCall (with_terminal (term.Range (codes "ab") (codes "c") (place 37 46)))) 0 (place 37 46) (codes "T") }
    ensures one_character { StandsNowhere (BadCall (with_terminal (term.Range (codes "a") (codes "a") no_place))) }
    ensures to_node { StandsAlone (BadCall (crossing y_id)) 0 (place 21 26) (codes "B") }
    ensures to_text { StandsNowhere (BadCall (crossing id_element)) }
{}

/// No flag is put in by a rule that makes nodes, and nothing by a fragment.
pub fn bad_assignments()
    ensures flag_by_node { StandsAlone (BadAssignment (assigning Flag (place 19 23) node_rule)) 0 (place 19 23) (codes "x") }
    ensures node { (s : Span) → StandsNowhere (BadAssignment (assigning One s node_rule)) }
    ensures flag_by_text { (s : Span) → StandsNowhere (BadAssignment (assigning Flag s (plain_rule (codes "B") no_place id_element))) }
    ensures fragment_ { StandsAlone (BadAssignment (assigning One (place 19 22) (fragment_rule (codes "F") no_place y_id))) 0 (place 19 22) (codes "x") }
{}

/// A name is declared once, and an inferred type is none that is declared. A second rule is told wherever it stands, also at the place of the
/// first.
pub fn duplicates()
    ensures rule { (s : Span) → StandsAlone (Duplicate (behind_a s (codes "A"))) 0 s (codes "A") }
    ensures other_rule { (s : Span) → StandsNowhere (Duplicate (behind_a s (codes "B"))) }
    ensures inferred { StandsAlone (Duplicate (beside_interface (codes "A"))) 0 (place 31 32) (codes "A") }
    ensures other_type { StandsNowhere (Duplicate (beside_interface (codes "B"))) }
{}

/// A rule, a terminal, an interface or a union whose name is not declared again there is what its name means.
pub fn what_is_declared_once_is_meant()
    ensures rule { (g : Grammar) (r : ℕ) (rule : Rule) → slice_get g.rules r ≡ Some rule → ¬ IsSecondDeclaration g (declared_rule rule) → IsRule g rule.name r rule }
    ensures terminal { (g : Grammar) (t : ℕ) (terminal : Terminal) → slice_get g.terminals t ≡ Some terminal →
        ¬ IsSecondDeclaration g (declared_terminal terminal) → IsTerminal g terminal.name t terminal }
    ensures interface { (g : Grammar) (i : ℕ) (interface : Interface) → slice_get g.interfaces i ≡ Some interface →
        ¬ IsSecondDeclaration g (declared_interface interface) → IsInterface g interface.name i interface }
    ensures union { (g : Grammar) (u : ℕ) (union : UnionDef) → slice_get g.unions u ≡ Some union → ¬ IsSecondDeclaration g (declared_union union) →
        IsUnion g union.name u union }
{}

/// What is called is a rule or a terminal. In a cross-reference the place is that of the whole.
pub fn unknown_rules()
    ensures value { StandsAlone (UnknownRule (alone (x_value (value.Call (codes "B") (place 21 22))))) 0 (place 21 22) (codes "B") }
    ensures crossed { StandsAlone (UnknownRule (alone (x_value (value.Cross (codes "A") (Some (codes "B")) (place 21 26))))) 0 (place 21 26) (codes "B") }
    ensures terminal { StandsNowhere (UnknownRule (alone x_id)) }
{}

/// A type that is named is declared, or inferred somewhere.
pub fn unknown_types()
    ensures nowhere_inferred { StandsAlone (UnknownType (alone (Act (makes_declared (codes "B") (place 19 22))))) 0 (place 19 22) (codes "B") }
    ensures inferred { (s : Span) → StandsNowhere (UnknownType (alone (Act (makes_declared (codes "A") s)))) }
{}

/// A cross-reference that names no rule is to a type whose nodes have names, read by what is there.
pub fn name_rules()
    ensures nameless { StandsAlone (NoNameRule (alone (by_its_name (place 21 24)))) 0 (place 21 24) (codes "A") }
    ensures unread { StandsAlone (NoNameRule (two_parts (puts (codes "name") (codes "IX")) (by_its_name (place 29 32)))) 0 (place 29 32) (codes "A") }
    ensures named { (s : Span) → StandsNowhere (NoNameRule (two_parts (puts (codes "name") (codes "ID")) (by_its_name s))) }
{}

/// Rules, terminals and actions are at most 1,024.
pub fn sizes()
    ensures too_many { StandsAlone (TooManyRules (many_rules 1024)) 0 no_place (codes "G") }
    ensures most { StandsNowhere (TooManyRules (many_rules 1023)) }
{}
