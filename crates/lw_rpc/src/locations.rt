// Parts of documents as JSON.
ghost use Rattle.std.specs.Prelude.{◌≡◌, ◌++◌, map, string_bytes, IfOk};
ghost use Rattle.serde_json.specs.Data.{array};
ghost use Rattle.serde_json.specs.View.{items_of};
ghost use Rattle.lw_rpc.specs.Readable.{ReadsBack};
ghost use Rattle.lw_rpc.specs.Replies.{location_text, locations_text};
ghost use Rattle.lw_rpc.specs.Values as spec;

use crate::Location;
use crate::lists::{Part, write_list};
use crate::ranges::write_range;
use crate::texts::write_quoted;
use lw_base::NoMemory;
use std::alloc::Global;

/// Parts of documents, in their order.
pub fn write_locations(alloc: Global, out: &mut String, list: &[Location]) -> Result<(), NoMemory>
    ensures text { IfOk result (λ _. string_bytes out.new ≡ string_bytes out.old ++ locations_text list.now) }
    ensures reads { IfOk result (λ _. ReadsBack (array (items_of (map spec.location_value list.now)))) }
{
    out.push_str("[")?;
    write_list(alloc, out, list)?;
    out.push_str("]")?;
    Ok(())
}

/// A part of a document (Language Server Protocol 3.17, "Location").
pub fn write_location(alloc: Global, out: &mut String, location: &Location) -> Result<(), NoMemory>
    ensures text { IfOk result (λ _. string_bytes out.new ≡ string_bytes out.old ++ location_text location.now) }
    ensures reads { IfOk result (λ _. ReadsBack (spec.location_value location.now)) }
{
    out.push_str(r#"{"range":"#)?;
    write_range(out, location.start, location.end)?;
    out.push_str(r#","uri":"#)?;
    write_quoted(alloc, out, &location.uri)?;
    out.push_str("}")?;
    Ok(())
}

impl Part for Location {
    ghost text = { location_text };

    ghost value = { spec.location_value };

    fn write(&self, alloc: Global, out: &mut String) -> Result<(), NoMemory> {
        write_location(alloc, out, self)
    }
}
