// What actions do to the node that is open.
ghost use Rattle.std.specs.Prelude.{ℕ, ◌≤◌, ◌∷◌, List, OnOk, length};
ghost use Rattle.lw_grammar.specs.declared.grammar.Grammar.{Grammar};
ghost use Rattle.lw_grammar.specs.declared.rule.Action.{Action};
ghost use Rattle.lw_grammar.specs.Marks as mark;
ghost use Rattle.lw_reading.specs.Brackets.{Bracket, InNode, grown};
ghost use Rattle.lw_reading.specs.Grown.{Held, Nothing, Takes};
ghost use Rattle.lw_program.specs.declared.recipes.mark.TreeMark.TheVariants as numbered;
ghost use Rattle.lw_program.specs.Meant.{MeansMark};
ghost use Rattle.lw_builder.specs.Standing.{StandsOpen};
ghost use Rattle.lw_builder.specs.Steps.{CanDo, DoesMark, EndsInNode, IsSameReading, read_tokens};

use crate::Builder;
use crate::open::{Open, OpenNode};
use lw_base::{NoMemory, PropId, TypeId};
use lw_tree::Value;

impl Builder<'_> {
    /// Does the action of this number.
    pub(crate) fn act(&mut self, act: u32) -> Result<(), NoMemory>
        requires { (g : Grammar) × (a : Action) × MeansMark g (numbered.Act act) (mark.Act a) × CanDo g (mark.Act a) self.old }
        ensures acted { (g : Grammar) (a : Action) → MeansMark g (numbered.Act act) (mark.Act a) → OnOk result (DoesMark g (mark.Act a) self.old self.new) }
        ensures reading { IsSameReading self.old self.new }
    {
        let action = self.recipes.action(act);
        match action.put {
            None => self.rename(action.type_id),
            Some(prop) => self.wrap(action.type_id, prop),
        }
    }

    /// The node that is open becomes one of this type.
    fn rename(&mut self, type_id: TypeId) -> Result<(), NoMemory>
        requires { EndsInNode self.old }
        ensures renamed { (g : Grammar) (type from : ℕ) (held : Held) (bs : List Bracket) → StandsOpen g self.old (InNode type from held ∷ bs) →
            OnOk result (StandsOpen g self.new (InNode type_id.0 from held ∷ bs)) }
        ensures reading { IsSameReading self.old self.new }
    {
        let node = self.take_node();
        self.brackets
            .push(Open::InNode(OpenNode { type_id, ..node }))?;
        Ok(())
    }

    /// The node that is open ends, and is put into a new one that begins where it began.
    fn wrap(&mut self, type_id: TypeId, prop: PropId) -> Result<(), NoMemory>
        requires stands { (g : Grammar) × (type : ℕ) × (from : ℕ) × (held : Held) × (bs : List Bracket) × StandsOpen g self.old (InNode type from held ∷ bs) }
        requires within { self.old.read ≤ length self.old.visible.now }
        ensures wrapped { (g : Grammar) (type from : ℕ) (held : Held) (bs : List Bracket) → StandsOpen g self.old (InNode type from held ∷ bs) →
            OnOk result (StandsOpen g self.new (InNode type_id.0 from (Takes Nothing prop.0 (grown (read_tokens self.old) type from held)) ∷ bs)) }
        ensures reading { IsSameReading self.old self.new }
    {
        let node = self.take_node();
        let own = self.finish(node)?;
        self.brackets
            .push(Open::InNode(OpenNode { type_id, ..node }))?;
        self.loose.push((prop, Value::Child(own)))?;
        Ok(())
    }
}
