// What ends: nodes and values.
ghost use Rattle.std.specs.Prelude.{ℕ, ◌≡◌, ◌++◌, ◌∷◌, [], ◌≤◌, IfOk, OnOk, drop, length};
ghost use Rattle.lw_grammar.specs.declared.grammar.Grammar.{Grammar};
ghost use Rattle.lw_reading.specs.Brackets.{joined_texts as joined_in};
ghost use Rattle.lw_grammar.specs.Marks as mark;
ghost use Rattle.lw_builder.specs.Built.{ArePartsOf};
ghost use Rattle.lw_builder.specs.Contents.{IsMadeValue, IsWorth, said_in};
ghost use Rattle.lw_builder.specs.Steps.{CanDo, DoesMark, EndsInNode, EndsInValue, KeepsTables, IsKeptButRefs, IsSameReading, read_tokens};

use crate::Builder;
use crate::contents::{number, said_in};
use crate::finishing::place_behind;
use crate::open::{Open, OpenNode, OpenValue};
use crate::spans::{joined_texts, read_since, span_of_tokens};
use lw_base::{Name, NoMemory, NodeId, RefId, Token};
use lw_program::recipes::{Content, TextForm, ValueRecipe};
use lw_tree::{Reference, Value};
use std::alloc::Global;

impl Builder<'_> {
    /// Takes the innermost bracket off, a node.
    pub(crate) fn take_node(&mut self) -> OpenNode
        requires { EndsInNode self.old }
        ensures brackets { self.old.brackets.items ≡ self.new.brackets.items ++ Open.InNode result ∷ [] }
        ensures kept { KeepsTables self.old self.new }
        ensures reading { IsSameReading self.old self.new }
    {
        match self.brackets.pop() {
            Some(Open::InNode(node)) => node,
            _ => unreachable!(),
        }
    }

    /// Takes the innermost bracket off, a value.
    pub(crate) fn take_value(&mut self) -> OpenValue
        requires { EndsInValue self.old }
        ensures brackets { self.old.brackets.items ≡ self.new.brackets.items ++ Open.InValue result ∷ [] }
        ensures kept { KeepsTables self.old self.new }
        ensures reading { IsSameReading self.old self.new }
    {
        match self.brackets.pop() {
            Some(Open::InValue(value)) => value,
            _ => unreachable!(),
        }
    }

    /// The innermost node ends: it is the value that is open around it, takes the place of the node around it, or is the root.
    pub(crate) fn shut(&mut self) -> Result<(), NoMemory>
        requires { (g : Grammar) × CanDo g mark.Shut self.old }
        ensures shut { (g : Grammar) → OnOk result (DoesMark g mark.Shut self.old self.new) }
        ensures reading { IsSameReading self.old self.new }
    {
        let node = self.take_node();
        match self.brackets.pop() {
            Some(Open::InValue(value)) => {
                let own = self.finish(node)?;
                self.brackets.push(Open::InValue(OpenValue {
                    node: Some(own),
                    ..value
                }))?;
                Ok(())
            }
            Some(Open::InNode(outer)) => {
                self.brackets.push(Open::InNode(OpenNode {
                    type_id: node.type_id,
                    ..outer
                }))?;
                Ok(())
            }
            Some(Open::Whole) => unreachable!(),
            None => {
                self.finish(node)?;
                self.brackets.push(Open::Whole)?;
                Ok(())
            }
        }
    }

    /// The innermost value ends: it is the node that was finished inside it, or what its tokens say.
    pub(crate) fn end(&mut self) -> Result<(), NoMemory>
        requires { (g : Grammar) × CanDo g mark.End self.old }
        ensures ended { (g : Grammar) → OnOk result (DoesMark g mark.End self.old self.new) }
        ensures reading { IsSameReading self.old self.new }
    {
        let ended = self.take_value();
        let recipes = self.recipes;
        let recipe = recipes.value(ended.put);
        let value = self.worth(recipe, ended)?;
        self.loose.push((recipe.prop, value))?;
        Ok(())
    }

    /// The node that was finished inside the value, or what is made of its tokens.
    fn worth(&mut self, recipe: &ValueRecipe, ended: OpenValue) -> Result<Value, NoMemory>
        requires within { self.old.read ≤ length self.old.visible.now }
        requires parts { ArePartsOf self.old.text.now self.old.visible.now }
        ensures worth { IfOk result (IsWorth self.old.text.now (drop ended.first (read_tokens self.old)) recipe.now.prop recipe.now.content
            self.old.refs.items self.new.refs.items ended.node) }
        ensures others { IsKeptButRefs self.old self.new }
        ensures reading { IsSameReading self.old self.new }
    {
        match ended.node {
            Some(place) => Ok(Value::Child(place)),
            None => self.made(recipe, ended.first),
        }
    }

    /// The value that is made of the tokens behind the first `first`.
    fn made(&mut self, recipe: &ValueRecipe, first: usize) -> Result<Value, NoMemory>
        requires within { self.old.read ≤ length self.old.visible.now }
        requires parts { ArePartsOf self.old.text.now self.old.visible.now }
        ensures made { IfOk result (IsMadeValue self.old.text.now (drop first (read_tokens self.old)) recipe.now.prop recipe.now.content
            self.old.refs.items self.new.refs.items) }
        ensures others { IsKeptButRefs self.old self.new }
        ensures reading { IsSameReading self.old self.new }
    {
        let alloc = *self.loose.allocator();
        let tokens = read_since(self.visible, self.read, first);
        let span = span_of_tokens(tokens);
        match &recipe.content {
            Content::Truth => Ok(Value::Truth(span)),
            Content::Keyword(word) => Ok(Value::Text(word.copy(alloc)?, span)),
            Content::Text(form) => {
                let text = said_by(alloc, *form, self.text, tokens)?;
                Ok(Value::Text(text, span))
            }
            Content::Number => {
                let text = joined_texts(alloc, self.text, tokens)?;
                Ok(number(text, span))
            }
            Content::Reference(want, form) => {
                let name = said_by(alloc, *form, self.text, tokens)?;
                self.refer(Reference {
                    owner: NodeId(0),
                    prop: recipe.prop,
                    want: *want,
                    name,
                    span,
                })
            }
        }
    }

    /// A reference was read.
    fn refer(&mut self, reference: Reference) -> Result<Value, NoMemory>
        ensures refers { IfOk result (λ v. v ≡ Value.Refers (record { 0 = length self.old.refs.items })) }
        ensures refs { OnOk result (self.new.refs.items ≡ self.old.refs.items ++ reference ∷ []) }
        ensures others { IsKeptButRefs self.old self.new }
        ensures reading { IsSameReading self.old self.new }
    {
        let number = RefId(place_behind(self.refs.len())?);
        self.refs.push(reference)?;
        Ok(Value::Refers(number))
    }
}

/// What these tokens of a text say in this form, with nothing between their texts. It takes time and memory linear in these. Want of memory
/// is the only error.
pub fn said_by(
    alloc: Global,
    form: TextForm,
    text: &Name,
    tokens: &[Token],
) -> Result<Name, NoMemory>
    requires { ArePartsOf text.now tokens.now }
    ensures { IfOk result (λ said. said ≡ said_in form (joined_in text.now tokens.now)) }
{
    let text = joined_texts(alloc, text, tokens)?;
    said_in(alloc, form, text)
}
