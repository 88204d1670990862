// What the definitions say of texts by grammars that are written out.
ghost use Rattle.lw_grammar.specs.Worked.{dotted_grammar, states_by_id};
ghost use Rattle.lw_reading.specs.Trees.{IsOpenedTree, IsTree};
ghost use Rattle.lw_reading.specs.Worked.{begun_marks, begun_tokens, begun_tree, dotted_marks, dotted_text, dotted_tokens, dotted_tree, flag_marks, flag_text, flag_tokens, flag_tree, flags, marked_marks, marked_text, marked_tokens, marked_tree, state_marks, state_text, state_tokens, state_tree, sum_marks, sum_text, sum_tokens, sum_tree, sums};

/// `model m state x to x end` by the grammar of models with states has a root named `m` with one child named `x`, in which one reference
/// looks up `x`. Where the end of the reference has not been read, the tree has the nodes so far and no reference.
pub fn states_and_references()
    ensures whole { IsTree states_by_id state_text state_marks state_tokens state_tokens state_tree }
    ensures begun { IsOpenedTree states_by_id state_text begun_marks begun_tokens begun_tokens begun_tree }
{}

/// The node that an unassigned call reads takes the place of the node of the rule that calls, with the type that an action gave it.
pub fn a_call_replaces_the_node()
    ensures { IsTree dotted_grammar marked_text marked_marks marked_tokens marked_tokens marked_tree }
{}

/// The value of a data type rule is the text of its tokens with nothing between.
pub fn a_data_type_rule_gives_a_text()
    ensures { IsTree dotted_grammar dotted_text dotted_marks dotted_tokens dotted_tokens dotted_tree }
{}

/// `{infer Add.left=current}` puts the node so far into a new node, which begins where that one does.
pub fn an_action_wraps_the_node()
    ensures { IsTree sums sum_text sum_marks sum_tokens sum_tokens sum_tree }
{}

/// `?=` of a cross-reference says that it was read, and makes no reference.
pub fn a_flag_is_no_reference()
    ensures { IsTree flags flag_text flag_marks flag_tokens flag_tokens flag_tree }
{}
