// Ranges as JSON.
ghost use Rattle.std.specs.Prelude.{◌≡◌, ◌++◌, string_bytes, IfOk};
ghost use Rattle.lw_rpc.specs.Readable.{ReadsBack};
ghost use Rattle.lw_rpc.specs.Replies.{position_text, range_text};
ghost use Rattle.lw_rpc.specs.Values as spec;

use crate::texts::write_natural;
use lw_base::NoMemory;
use lw_text::Pos;

/// A part of a text (Language Server Protocol 3.17, "Range").
pub fn write_range(out: &mut String, start: Pos, end: Pos) -> Result<(), NoMemory>
    ensures text { IfOk result (λ _. string_bytes out.new ≡ string_bytes out.old ++ range_text start end) }
    ensures reads { IfOk result (λ _. ReadsBack (spec.range_value start end)) }
{
    out.push_str(r#"{"end":"#)?;
    write_position(out, end)?;
    out.push_str(r#","start":"#)?;
    write_position(out, start)?;
    out.push_str("}")?;
    Ok(())
}

fn write_position(out: &mut String, place: Pos) -> Result<(), NoMemory>
    ensures text { IfOk result (λ _. string_bytes out.new ≡ string_bytes out.old ++ position_text place) }
    ensures reads { IfOk result (λ _. ReadsBack (spec.position_value place)) }
{
    out.push_str(r#"{"character":"#)?;
    write_natural(out, u64::from(place.character))?;
    out.push_str(r#","line":"#)?;
    write_natural(out, u64::from(place.line))?;
    out.push_str("}")?;
    Ok(())
}
