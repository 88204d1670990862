// Properties of inferred types that are a list here and none there.
ghost use Rattle.std.specs.Prelude.{List, OnOk, map};
ghost use Rattle.lw_faults.specs.Properties.{MixedProperty};
ghost use Rattle.lw_faults.specs.Finding.{Finds, OfSome, IsFaultOf};
ghost use Rattle.lw_properties.specs.Asked.{IsKnownIn};
ghost use Rattle.lw_properties.specs.Places.{spot_of, ArePlacesOf};
ghost use Rattle.lw_properties.specs.Mixing.{Putting, putting_of, AreFirstPuts, MixedAt};

use crate::firsts::{Firsts, first_puts, is_mixed};
use crate::inferred::inferred_types;
use crate::known::Known;
use crate::places::Place;
use crate::puts::{Put, put_puts};
use crate::telling::{Spoken, tell_if};
use lw_base::NoMemory;
use lw_faults::FaultKind;
use lw_faults::findings::Findings;
use std::alloc::Global;

/// Finds properties of types that are inferred and not declared which are a list here, and none at a
/// place before, or the other way round.
pub(crate) fn find_mixed_properties<'g>(
    alloc: Global,
    known: &Known<'g>,
    places: &[Place<'g>],
    found: &mut Findings,
) -> Result<(), NoMemory>
    requires known { IsKnownIn known.now }
    requires places { ArePlacesOf known.now.g.now (map spot_of places.now) }
    ensures { OnOk result (Finds (IsFaultOf 16 (MixedProperty known.now.g.now)) found.old found.new) }
{
    let inferred = inferred_types(alloc, known.g, places)?;
    let mut puts = Vec::new(alloc);
    put_puts(known, &inferred, places, &mut puts)?;
    find_mixed(alloc, puts.as_slice(), found)
}

/// Finds what is put in as a list behind what is put in as none, or the other way round.
fn find_mixed(alloc: Global, puts: &[Put<'_>], found: &mut Findings) -> Result<(), NoMemory>
    ensures { OnOk result (Finds (OfSome (MixedAt (map putting_of puts.now)) (map putting_of puts.now)) found.old found.new) }
{
    let firsts = first_puts(alloc, puts)?;
    for put in puts {
        mixed_at(alloc, &firsts, put, found)?;
    }
    Ok(())
}

fn mixed_at(
    alloc: Global,
    firsts: &Firsts<'_>,
    put: &Put<'_>,
    found: &mut Findings,
) -> Result<(), NoMemory>
    ensures { (puts : List Putting) → AreFirstPuts puts firsts.now.entries → OnOk result (Finds (MixedAt puts (putting_of put.now)) found.old found.new) }
{
    let spoken = Spoken {
        file: put.file,
        span: put.span,
        name: put.property,
    };
    let so = is_mixed(firsts, put);
    tell_if(alloc, found, so, FaultKind::MixedProperty, &spoken)
}
