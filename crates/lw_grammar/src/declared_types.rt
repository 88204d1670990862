// Types that a grammar declares, and what a property may hold.
use crate::Primitive;
use lw_base::{Items, Name, Span, TypeId};

/// An interface. The span is that of its name.
#[derive(Drop)]
pub struct Interface {
    pub name: Name,
    pub file: u16,
    pub span: Span,
    /// The types that it extends.
    pub above: Items<(Name, Span)>,
    pub attributes: Items<Attribute>,
}

/// A property of an interface. The span is that of its name.
#[derive(Drop)]
pub struct Attribute {
    pub name: Name,
    pub span: Span,
    pub optional: bool,
    pub list: bool,
    pub members: Items<Member>,
}

/// A union type. The span is that of its name.
#[derive(Drop)]
pub struct UnionDef {
    pub name: Name,
    pub file: u16,
    pub span: Span,
    pub members: Items<Member>,
}

/// One of the values that an attribute or a union takes.
#[derive(Drop)]
pub enum Member {
    /// Nodes of a type, or the texts of a data type rule.
    Named(Name, Span),
    /// `@T`: references to nodes of a type.
    Refers(Name, Span),
    Plain(Primitive),
    /// A text that is written out.
    Literal(Name),
}

/// A value that a property holds.
#[derive(Clone, Copy, Debug, PartialEq, Eq)]
pub enum ValueKind {
    Plain(Primitive),
    Nodes(TypeId),
    Refs(TypeId),
}
