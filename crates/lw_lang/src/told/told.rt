// Faults by where they stand for a reader.
ghost use Rattle.std.specs.Prelude.{IfOk, All};
ghost use Rattle.lw_load.specs.Standing.{Stands};
ghost use Rattle.lw_lang.specs.Telling.{AreToldAs, IsToldAs};
ghost use Rattle.lw_lang.specs.Placed.{HasPlace};

use lw_base::{Items, Name, NoMemory};
use lw_grammar::{Grammar, GrammarFault};
use lw_text::{Pos, position};
use std::alloc::Global;

/// A fault by its number, the path of the file, the position there, line and UTF-16 unit from zero, and the name
/// that is spoken of.
#[derive(Drop)]
pub struct ToldFault {
    pub number: u8,
    pub path: Name,
    pub at: Pos,
    pub name: Name,
}

/// Tells faults by the paths of their files and positions there, where these are the texts of the grammar's files.
pub fn told_faults(
    alloc: Global,
    g: &Grammar,
    texts: &[Name],
    faults: &[GrammarFault],
) -> Result<Items<ToldFault>, NoMemory>
    requires stand { Stands texts.now g.now }
    requires placed { All (HasPlace texts.now) faults.now }
    ensures { IfOk result (AreToldAs g.now texts.now faults.now) }
{
    let mut told = Items::new(alloc);
    for fault in faults {
        told.push(told_fault(alloc, g, texts, fault)?)?;
    }
    Ok(told)
}

fn told_fault(
    alloc: Global,
    g: &Grammar,
    texts: &[Name],
    fault: &GrammarFault,
) -> Result<ToldFault, NoMemory>
    requires stand { Stands texts.now g.now }
    requires placed { HasPlace texts.now fault.now }
    ensures { IfOk result (IsToldAs g.now texts.now fault.now) }
{
    let file = fault.file as usize;
    Ok(ToldFault {
        number: fault.number,
        path: g.files.as_slice()[file].copy(alloc)?,
        at: position(texts[file].text(), fault.span.start as usize),
        name: fault.name.copy(alloc)?,
    })
}
