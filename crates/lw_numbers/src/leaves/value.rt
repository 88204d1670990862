// The parts of what an assignment reads.
ghost use Rattle.std.specs.Prelude.{◌≡◌, [], ◌∷◌, ◌++◌, OnOk, IfOk, map};
ghost use Rattle.std.specs.List.{flat_map};
ghost use Rattle.lw_grammar.specs.Leaves.{value_leaves};
ghost use Rattle.lw_numbers.specs.Parts.{value_leaf_of};

use lw_base::{Name, NoMemory, Span};
use lw_grammar::Value0;
use std::alloc::Global;

/// A keyword, a call or a cross-reference that an assignment reads, lent from the grammar.
#[derive(Clone, Copy, Drop)]
pub enum ValuePart<'g> {
    Keyword(&'g Name, Span),
    Call(&'g Name, Span),
    /// The wanted type, and the rule that reads its text where one is written.
    Cross(&'g Name, Option<&'g Name>, Span),
}

/// What an assignment reads, one of these, in the order of the text, in linear time.
pub fn value_parts(alloc: Global, value: &Value0) -> Result<Vec<ValuePart<'_>>, NoMemory>
    ensures { IfOk result (λ found. map value_leaf_of found.items ≡ value_leaves value.now) }
{
    let mut found = Vec::new(alloc);
    put_value(&mut found, value)?;
    Ok(found)
}

/// Puts one more behind the others.
fn put<'g>(found: &mut Vec<ValuePart<'g>>, part: ValuePart<'g>) -> Result<(), NoMemory>
    ensures { OnOk result (map value_leaf_of found.new.items ≡ map value_leaf_of found.old.items ++ value_leaf_of part.entry ∷ []) }
{
    found.push(part)?;
    Ok(())
}

#[cycle(values)]
#[tactic(auto, using(crate::proofs::Equations::values_of_forms))]
fn put_value<'g>(found: &mut Vec<ValuePart<'g>>, value: &'g Value0) -> Result<(), NoMemory>
    ensures { OnOk result (map value_leaf_of found.new.items ≡ map value_leaf_of found.old.items ++ value_leaves value.now) }
{
    match value {
        Value0::Keyword(text, span) => put(found, ValuePart::Keyword(text, *span)),
        Value0::Call(name, span) => put(found, ValuePart::Call(name, *span)),
        Value0::Cross(wanted, rule, span) => {
            put(found, ValuePart::Cross(wanted, rule.as_ref(), *span))
        }
        Value0::Choice(parts, _) => put_values(found, parts.as_slice()),
    }
}

#[cycle(values)]
fn put_values<'g>(found: &mut Vec<ValuePart<'g>>, values: &'g [Value0]) -> Result<(), NoMemory>
    ensures { OnOk result (map value_leaf_of found.new.items ≡ map value_leaf_of found.old.items ++ flat_map value_leaves values.now) }
{
    for value in values {
        put_value(found, value)?;
    }
    Ok(())
}
