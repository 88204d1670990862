// Sets of effects and of marks.
ghost use Rattle.std.specs.Prelude.{◌≡◌, ◌≤◌, ◌<◌, ◌^◌, ◌↔◌, ◌⊎◌, [], ◌∷◌, true, false, length, IsTrue, OnOk, IfOk, Contains};
ghost use Rattle.indexmap.specs.IndexSet.{insert_all};
ghost use Rattle.lw_flow.specs.declared.effect.Effect.{Effect};
ghost use Rattle.lw_flow.specs.declared.effect.Mark.{Mark};
ghost use Rattle.lw_flow.specs.declared.effect.Mark.TheVariants.{Done};
ghost use Rattle.lw_flow.specs.Effects.{weight};
ghost use Rattle.lw_flow.specs.Sets.{AddsFrom, lesser, lesser_done, IsLightest, IsJoined, IsLightestDone, Stays, IsMoved};

use crate::effect::{Effect, Mark};
use indexmap::IndexSet;
use lw_base::NoMemory;
use std::alloc::Global;
use std::hash::Hash;

/// Puts each of these into the set, and says whether one is new.
pub(crate) fn put_all<T: Eq + Hash + Copy>(
    set: &mut IndexSet<T>,
    items: &[T],
) -> Result<bool, NoMemory>
    ensures keys { OnOk result (set.new.keys ≡ insert_all T.eq set.old.keys items.now) }
    ensures none { IfOk result (λ grown. grown ≡ false → set.new.keys ≡ set.old.keys) }
    ensures more { IfOk result (λ grown. grown ≡ true → (length set.old.keys < length set.new.keys) × (length set.new.keys < 2 ^ 64)) }
{
    let before = set.len();
    for item in items {
        set.insert(*item)?;
    }
    Ok(before < set.len())
}

/// A set of these.
pub(crate) fn copied<T: Eq + Hash + Copy>(
    alloc: Global,
    items: &[T],
) -> Result<IndexSet<T>, NoMemory>
    ensures { IfOk result (λ set. set.keys ≡ insert_all T.eq [] items.now) }
{
    let mut set = IndexSet::new(alloc);
    put_all(&mut set, items)?;
    Ok(set)
}

/// Puts an effect into the set.
pub(crate) fn put_effect(set: &mut IndexSet<Effect>, effect: Effect) -> Result<(), NoMemory>
    ensures { OnOk result ((y : Effect) → Contains set.new.keys y ↔ (Contains set.old.keys y ⊎ (y ≡ effect))) }
{
    set.insert(effect)?;
    Ok(())
}

/// Puts a mark into the set.
pub(crate) fn put_mark(set: &mut IndexSet<Mark>, mark: Mark) -> Result<(), NoMemory>
    ensures { OnOk result ((m : Mark) → Contains set.new.keys m ↔ (Contains set.old.keys m ⊎ (m ≡ mark))) }
{
    set.insert(mark)?;
    Ok(())
}

/// The weight of a lightest effect.
fn lightest(effects: &[Effect]) -> Option<u8>
    ensures { IsLightest effects.now result }
{
    let mut least: Option<u8> = None;
    for effect in effects {
        least = lighter(least, effect.weight());
    }
    least
}

/// The lesser weight, where there is one before.
fn lighter(least: Option<u8>, weight: u8) -> Option<u8>
    ensures { result ≡ lesser least weight }
{
    match least {
        Some(least) => Some(least.min(weight)),
        None => Some(weight),
    }
}

/// The weight of a lightest effect of the marks.
fn lightest_done(marks: &[Mark]) -> Option<u8>
    ensures { IsLightestDone marks.now result }
{
    let mut least: Option<u8> = None;
    for mark in marks {
        least = lighter_done(least, mark);
    }
    least
}

/// The lesser weight, where the mark has an effect.
fn lighter_done(least: Option<u8>, mark: &Mark) -> Option<u8>
    ensures { result ≡ lesser_done least mark.now }
{
    match mark {
        Mark::Done(effect) => lighter(least, effect.weight()),
        Mark::Own(_) | Mark::Of(_) => least,
    }
}

/// Puts those that weigh at least so much into the set.
fn put_heavy(set: &mut IndexSet<Effect>, effects: &[Effect], least: u8) -> Result<(), NoMemory>
    ensures { OnOk result (AddsFrom (λ x y. (y ≡ x) × (least ≤ weight x)) set.old.keys effects.now set.new.keys) }
{
    for effect in effects {
        if least <= effect.weight() {
            put_effect(set, *effect)?;
        }
    }
    Ok(())
}

/// What is done by one of the first and then one of the second, in time that is linear in both.
pub(crate) fn joined_effects(
    alloc: Global,
    first: &[Effect],
    second: &[Effect],
) -> Result<IndexSet<Effect>, NoMemory>
    ensures { IfOk result (λ set. (z : Effect) → Contains set.keys z ↔ IsJoined first.now second.now z) }
{
    let mut set = IndexSet::new(alloc);
    let low = match lightest(second) {
        Some(low) => low,
        None => return Ok(set),
    };
    let least = match lightest(first) {
        Some(least) => least,
        None => return Ok(set),
    };
    put_heavy(&mut set, first, low + 1)?;
    put_heavy(&mut set, second, least)?;
    Ok(set)
}

/// Whether the mark stays what it is behind something of this weight.
fn stays(mark: &Mark, weight: u8) -> bool
    ensures { IsTrue result ↔ Stays mark.now weight }
{
    match mark {
        Mark::Done(effect) => weight < effect.weight(),
        Mark::Own(_) => weight < 3,
        Mark::Of(_) => true,
    }
}

/// Puts those into the set that stay what they are behind something of this weight.
fn put_staying(set: &mut IndexSet<Mark>, marks: &[Mark], weight: u8) -> Result<(), NoMemory>
    ensures { OnOk result (AddsFrom (λ n m. (m ≡ n) × Stays n weight) set.old.keys marks.now set.new.keys) }
{
    for mark in marks {
        if stays(mark, weight) {
            put_mark(set, *mark)?;
        }
    }
    Ok(())
}

/// Puts a mark into the set for each effect that weighs at least so much.
fn put_done(set: &mut IndexSet<Mark>, effects: &[Effect], least: u8) -> Result<(), NoMemory>
    ensures { OnOk result (AddsFrom (λ y m. (m ≡ Done y) × (least ≤ weight y)) set.old.keys effects.now set.new.keys) }
{
    for effect in effects {
        if least <= effect.weight() {
            put_mark(set, Mark::Done(*effect))?;
        }
    }
    Ok(())
}

/// The marks behind one of the effects, in time that is linear in both.
pub(crate) fn moved_marks(
    alloc: Global,
    marks: &[Mark],
    effects: &[Effect],
) -> Result<IndexSet<Mark>, NoMemory>
    ensures { IfOk result (λ set. (m : Mark) → Contains set.keys m ↔ IsMoved marks.now effects.now m) }
{
    let mut set = IndexSet::new(alloc);
    let low = match lightest(effects) {
        Some(low) => low,
        None => return Ok(set),
    };
    put_staying(&mut set, marks, low)?;
    let least = match lightest_done(marks) {
        Some(least) => least,
        None => return Ok(set),
    };
    put_done(&mut set, effects, least)?;
    Ok(set)
}
