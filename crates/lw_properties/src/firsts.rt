// Where properties are put into first.
ghost use Rattle.std.specs.Prelude.{◌≡◌, ◌↔◌, ◌∷◌, ◌++◌, [], List, IsTrue, IfOk, OnOk, map};
ghost use Rattle.lw_properties.specs.Mixing.{Putting, putting_of, at_of, IsAheadOf, AreFirstPuts, IsMixedWith};

use crate::puts::Put;
use indexmap::IndexMap;
use lw_base::{Name, NoMemory};
use std::alloc::Global;

/// A place in a grammar's files.
#[derive(Clone, Copy, Drop)]
pub(crate) struct At {
    pub(crate) file: u16,
    pub(crate) start: u32,
}

impl At {
    fn is_ahead(self, other: At) -> bool
        ensures { IsTrue result ↔ IsAheadOf self other }
    {
        self.file < other.file || (self.file == other.file && self.start < other.start)
    }
}

/// By the type, the property, and whether it is a list, where something is put in first.
pub(crate) type Firsts<'g> = IndexMap<(&'g Name, &'g Name, bool), At>;

/// Those of all that is put in, in expected linear time.
pub(crate) fn first_puts<'g>(alloc: Global, puts: &[Put<'g>]) -> Result<Firsts<'g>, NoMemory>
    ensures { IfOk result (λ firsts. AreFirstPuts (map putting_of puts.now) firsts.entries) }
{
    let mut firsts = IndexMap::new(alloc);
    for put in puts {
        put_first(&mut firsts, put)?;
    }
    Ok(firsts)
}

fn put_first<'g>(firsts: &mut Firsts<'g>, put: &Put<'g>) -> Result<(), NoMemory>
    ensures { OnOk result ((puts : List Putting) → AreFirstPuts puts firsts.old.entries → AreFirstPuts (puts ++ putting_of put.now ∷ []) firsts.new.entries) }
{
    let at = at_of(put);
    let key = (put.type_name, put.property, put.list);
    let is_first = match firsts.get(&key) {
        Some(known) => at.is_ahead(*known),
        None => true,
    };
    if is_first {
        firsts.insert(key, at)?;
    }
    Ok(())
}

fn at_of(put: &Put<'_>) -> At
    ensures { result ≡ at_of (putting_of put.now) }
{
    At {
        file: put.file,
        start: put.span.start,
    }
}

/// Whether something is put into the same property further ahead, a list where this is none, or the
/// other way round. A look-up takes constant time, as expected.
pub(crate) fn is_mixed(firsts: &Firsts<'_>, put: &Put<'_>) -> bool
    ensures { (puts : List Putting) → AreFirstPuts puts firsts.now.entries → IsTrue result ↔ IsMixedWith puts (putting_of put.now) }
{
    match firsts.get(&(put.type_name, put.property, !put.list)) {
        Some(first) => first.is_ahead(at_of(put)),
        None => false,
    }
}
