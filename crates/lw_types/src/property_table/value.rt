// Values as sets hold them.
ghost use Rattle.std.specs.Prelude.{◌≡◌, ◌++◌, OnOk, IfOk, map};
ghost use Rattle.lw_types.specs.FirstSeen.{FirstSeen};
ghost use Rattle.lw_types.specs.Gathered.{value_kind, value_kinds, JoinsValues};

use indexmap::IndexSet;
use lw_base::{Items, NoMemory, TypeId};
use lw_grammar::{Primitive, ValueKind};
use std::alloc::Global;

/// A kind of value.
#[derive(Clone, Copy, PartialEq, Eq, Hash)]
pub(crate) enum Value {
    Text,
    Number,
    Boolean,
    BigInt,
    Date,
    /// Nodes of the type of this number.
    Nodes(u16),
    /// References to nodes of the type of this number.
    Refs(u16),
}

impl Value {
    pub(crate) fn of(kind: ValueKind) -> Value
        ensures { value_kind result ≡ kind }
    {
        match kind {
            ValueKind::Plain(Primitive::Text) => Value::Text,
            ValueKind::Plain(Primitive::Number) => Value::Number,
            ValueKind::Plain(Primitive::Boolean) => Value::Boolean,
            ValueKind::Plain(Primitive::BigInt) => Value::BigInt,
            ValueKind::Plain(Primitive::Date) => Value::Date,
            ValueKind::Nodes(id) => Value::Nodes(id.0),
            ValueKind::Refs(id) => Value::Refs(id.0),
        }
    }

    fn kind(self) -> ValueKind
        ensures { result ≡ value_kind self }
    {
        match self {
            Value::Text => ValueKind::Plain(Primitive::Text),
            Value::Number => ValueKind::Plain(Primitive::Number),
            Value::Boolean => ValueKind::Plain(Primitive::Boolean),
            Value::BigInt => ValueKind::Plain(Primitive::BigInt),
            Value::Date => ValueKind::Plain(Primitive::Date),
            Value::Nodes(number) => ValueKind::Nodes(TypeId(number)),
            Value::Refs(number) => ValueKind::Refs(TypeId(number)),
        }
    }
}

/// Puts each of these into the set.
pub(crate) fn put_kinds(set: &mut IndexSet<Value>, kinds: &[ValueKind]) -> Result<(), NoMemory>
    ensures { OnOk result (JoinsValues (value_kinds set.old.keys) kinds.now (value_kinds set.new.keys)) }
{
    for kind in kinds {
        set.insert(Value::of(*kind))?;
    }
    Ok(())
}

/// The values of a set, in order.
pub(crate) fn kinds(alloc: Global, values: &[Value]) -> Result<Items<ValueKind>, NoMemory>
    ensures { IfOk result (λ list. list ≡ value_kinds values.now) }
{
    let mut list = Items::new(alloc);
    for value in values {
        list.push(value.kind())?;
    }
    Ok(list)
}
