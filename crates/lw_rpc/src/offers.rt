// What may be put in at a place, as JSON.
ghost use Rattle.std.specs.Prelude.{◌≡◌, ◌++◌, map, string_bytes, IfOk};
ghost use Rattle.serde_json.specs.Data.{array};
ghost use Rattle.serde_json.specs.View.{items_of};
ghost use Rattle.lw_rpc.specs.Readable.{ReadsBack};
ghost use Rattle.lw_rpc.specs.Replies.{offer_text, offers_text};
ghost use Rattle.lw_rpc.specs.Values as spec;

use crate::CompletionItem;
use crate::edits::write_replacement;
use crate::lists::{Part, write_list};
use crate::texts::{write_quoted, write_small};
use lw_base::NoMemory;
use std::alloc::Global;

/// What may be put in, item by item, in their order (Language Server Protocol 3.17, "Completion Request").
pub fn write_offers(
    alloc: Global,
    out: &mut String,
    list: &[CompletionItem],
) -> Result<(), NoMemory>
    ensures text { IfOk result (λ _. string_bytes out.new ≡ string_bytes out.old ++ offers_text list.now) }
    ensures reads { IfOk result (λ _. ReadsBack (array (items_of (map spec.offer_value list.now)))) }
{
    out.push_str("[")?;
    write_list(alloc, out, list)?;
    out.push_str("]")?;
    Ok(())
}

/// One text that may be put in (Language Server Protocol 3.17, "CompletionItem").
fn write_offer(alloc: Global, out: &mut String, offer: &CompletionItem) -> Result<(), NoMemory>
    ensures text { IfOk result (λ _. string_bytes out.new ≡ string_bytes out.old ++ offer_text offer.now) }
    ensures reads { IfOk result (λ _. ReadsBack (spec.offer_value offer.now)) }
{
    out.push_str(r#"{"kind":"#)?;
    write_small(out, offer.kind)?;
    out.push_str(r#","label":"#)?;
    write_quoted(alloc, out, &offer.label)?;
    out.push_str(r#","textEdit":"#)?;
    write_replacement(alloc, out, &offer.label, offer.start, offer.end)?;
    out.push_str("}")?;
    Ok(())
}

impl Part for CompletionItem {
    ghost text = { offer_text };

    ghost value = { spec.offer_value };

    fn write(&self, alloc: Global, out: &mut String) -> Result<(), NoMemory> {
        write_offer(alloc, out, self)
    }
}
