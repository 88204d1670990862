// Whether parts of rules may read no token, or may read any number of tokens, where flags say it of rules.
ghost use Rattle.std.specs.Prelude.{◌↔◌, IsTrue};
ghost use Rattle.lw_kinds.specs.Known.{AreKnown};
ghost use Rattle.lw_kinds.specs.Passing.{CallPasses, CrossPasses, ValuePasses, SomeValuePasses, Passes, EachPasses, SomePass};

use crate::derivations::flags::is_set;
use crate::derivations::names::Names;
use lw_base::Name;
use lw_grammar::{Element, Value0};

impl Names<'_> {
    fn call_passes(&self, tokens: bool, flags: &[bool], name: &Name) -> bool
        requires { AreKnown self.now }
        ensures { IsTrue result ↔ CallPasses self.now.g.now tokens flags.now name.now }
    {
        match self.rule(name) {
            Some(rule) => is_set(flags, rule),
            None => tokens,
        }
    }

    fn cross_passes(&self, tokens: bool, flags: &[bool], wanted: &Name, rule: &Option<Name>) -> bool
        requires { AreKnown self.now }
        ensures { IsTrue result ↔ CrossPasses self.now.g.now tokens flags.now wanted.now rule.now }
    {
        match self.read_by(wanted, rule) {
            Some(name) => self.call_passes(tokens, flags, name),
            None => tokens,
        }
    }

    #[cycle(values)]
    fn value_passes(&self, tokens: bool, flags: &[bool], value: &Value0) -> bool
        requires { AreKnown self.now }
        ensures { IsTrue result ↔ ValuePasses self.now.g.now tokens flags.now value.now }
    {
        match value {
            Value0::Keyword(..) => tokens,
            Value0::Call(name, _) => self.call_passes(tokens, flags, name),
            Value0::Cross(wanted, rule, _) => self.cross_passes(tokens, flags, wanted, rule),
            Value0::Choice(values, _) => self.some_value_passes(tokens, flags, values.as_slice()),
        }
    }

    #[cycle(values)]
    fn some_value_passes(&self, tokens: bool, flags: &[bool], values: &[Value0]) -> bool
        requires { AreKnown self.now }
        ensures { IsTrue result ↔ SomeValuePasses self.now.g.now tokens flags.now values.now }
    {
        for value in values {
            if self.value_passes(tokens, flags, value) {
                return true;
            }
        }
        false
    }

    /// Whether the element may read no token, or where tokens are allowed any number of them, as far as
    /// the flags of rules say it.
    #[cycle(elements)]
    pub(crate) fn passes(&self, tokens: bool, flags: &[bool], element: &Element) -> bool
        requires { AreKnown self.now }
        ensures { IsTrue result ↔ Passes self.now.g.now tokens flags.now element.now }
    {
        match element {
            Element::Keyword(..) => tokens,
            Element::Call(name, _) => self.call_passes(tokens, flags, name),
            Element::Assign(_, _, value, _) => self.value_passes(tokens, flags, value),
            Element::Act(_) => true,
            Element::Group(parts, _) => self.all_pass(tokens, flags, parts.as_slice()),
            Element::Choice(parts, _) => self.some_pass(tokens, flags, parts.as_slice()),
            Element::Maybe(..) => true,
            Element::Many(..) => true,
            Element::Some1(part, _) => self.passes(tokens, flags, part.get()),
        }
    }

    #[cycle(elements)]
    fn all_pass(&self, tokens: bool, flags: &[bool], elements: &[Element]) -> bool
        requires { AreKnown self.now }
        ensures { IsTrue result ↔ EachPasses self.now.g.now tokens flags.now elements.now }
    {
        for element in elements {
            if !self.passes(tokens, flags, element) {
                return false;
            }
        }
        true
    }

    #[cycle(elements)]
    fn some_pass(&self, tokens: bool, flags: &[bool], elements: &[Element]) -> bool
        requires { AreKnown self.now }
        ensures { IsTrue result ↔ SomePass self.now.g.now tokens flags.now elements.now }
    {
        for element in elements {
            if self.passes(tokens, flags, element) {
                return true;
            }
        }
        false
    }
}
