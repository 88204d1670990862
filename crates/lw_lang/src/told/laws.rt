// Where the faults of a grammar stand.
ghost use Rattle.std.specs.Prelude.{ℕ, List, ◌<◌, length};
ghost use Rattle.lw_grammar.specs.declared.fault.GrammarFault.{GrammarFault};
ghost use Rattle.lw_grammar.specs.declared.grammar.Grammar.{Grammar};
ghost use Rattle.lw_faults.specs.Faults.{IsTypeFault, IsCheckFault};
ghost use Rattle.lw_load.specs.Standing.{Stands};
ghost use Rattle.lw_lang.specs.Placed.{HasPlace};

/// Where each thing of a grammar stands in the text of its file, so does each fault. Two faults are told at the
/// start of the root file, so there has to be one.
pub fn faults_have_places()
    ensures types { (texts : List (List ℕ)) (g : Grammar) → Stands texts g → (f : GrammarFault) → IsTypeFault g f → HasPlace texts f }
    ensures checks { (texts : List (List ℕ)) (g : Grammar) → Stands texts g → 0 < length g.files → (f : GrammarFault) → IsCheckFault g f → HasPlace texts f }
{}
