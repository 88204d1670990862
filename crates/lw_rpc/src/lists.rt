// Lists as JSON.
ghost use Rattle.std.specs.Prelude.{◌≡◌, ◌++◌, ℕ, List, map, string_bytes, All, IfOk};
ghost use Rattle.std.specs.List.{join_with_byte};
ghost use Rattle.serde_json.specs.Data.{Data};
ghost use Rattle.serde_json.specs.Written.{comma_if};
ghost use Rattle.lw_rpc.specs.Readable.{ReadsBack};

use lw_base::NoMemory;
use std::alloc::Global;

/// What stands in a list, or in an object as one of many members.
pub trait Part {
    ghost text: { Self → List ℕ };

    ghost value: { Self → Data };

    /// Its text, behind what `out` holds.
    fn write(&self, alloc: Global, out: &mut String) -> Result<(), NoMemory>
        ensures text { IfOk result (λ _. string_bytes out.new ≡ string_bytes out.old ++ text self.now) }
        ensures reads { IfOk result (λ _. ReadsBack (value self.now)) };
}

/// The parts in their order, with a comma between two of them.
pub fn write_list<T: Part>(alloc: Global, out: &mut String, list: &[T]) -> Result<(), NoMemory>
    ensures text { IfOk result (λ _. string_bytes out.new ≡ string_bytes out.old ++ join_with_byte 44 (map T.text list.now)) }
    ensures reads { IfOk result (λ _. All (λ part. ReadsBack (T.value part)) list.now) }
{
    let mut later = false;
    'parts: for part in list {
        write_comma(out, later)?;
        part.write(alloc, out)?;
        later = true;
    }
    Ok(())
}

/// A comma, where something stands before.
fn write_comma(out: &mut String, later: bool) -> Result<(), NoMemory>
    ensures { IfOk result (λ _. string_bytes out.new ≡ string_bytes out.old ++ comma_if later) }
{
    if later {
        out.push_str(",")?;
    }
    Ok(())
}
