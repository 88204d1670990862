// Parser rules, and what their bodies are made of.
use crate::Primitive;
use lw_base::{Boxed, Items, Name, Span};

/// A parser rule. The span is that of its name.
#[derive(Drop)]
pub struct Rule {
    pub name: Name,
    pub file: u16,
    pub span: Span,
    pub is_entry: bool,
    /// A fragment makes no node: its body stands where it is called.
    pub is_fragment: bool,
    pub result: RuleResult,
    pub body: Element,
}

/// What a rule says of its type.
#[derive(Drop)]
pub enum RuleResult {
    /// Nothing: the type has the rule's own name.
    Own,
    /// `returns` and the name of a type.
    Returns(Name, Span),
    /// `returns` and a primitive.
    Gives(Primitive),
    /// `infers` and the name of a type.
    Infers(Name, Span),
}

/// A part of a rule's body.
#[derive(Drop)]
pub enum Element {
    Keyword(Name, Span),
    /// A call of a rule or a terminal, whose value goes into no property.
    Call(Name, Span),
    /// A property, how the value goes in, and what is read.
    Assign(Name, Op, Value0, Span),
    Act(Action),
    /// Parts in a row, two or more.
    Group(Items<Element>, Span),
    /// Alternatives, two or more.
    Choice(Items<Element>, Span),
    /// `?`
    Maybe(Boxed<Element>, Span),
    /// `*`
    Many(Boxed<Element>, Span),
    /// `+`
    Some1(Boxed<Element>, Span),
}

/// How a value goes into a property.
#[derive(Clone, Copy, Debug, PartialEq, Eq)]
pub enum Op {
    /// `=`: it is the value.
    One,
    /// `+=`: it goes to the end of a list.
    Add,
    /// `?=`: the property is true.
    Flag,
}

/// What an assignment reads.
#[derive(Drop)]
pub enum Value0 {
    Keyword(Name, Span),
    /// A call of a rule or a terminal.
    Call(Name, Span),
    /// A cross-reference: the wanted type, and the rule that reads its text where one is written.
    Cross(Name, Option<Name>, Span),
    /// Alternatives, two or more.
    Choice(Items<Value0>, Span),
}

/// `{infer T}`, `{T}`, or one of these with `.property=current`.
#[derive(Drop)]
pub struct Action {
    pub infers: bool,
    pub type_name: Name,
    /// The property that takes the current node, and whether it is a list.
    pub put: Option<(Name, bool)>,
    pub span: Span,
}
