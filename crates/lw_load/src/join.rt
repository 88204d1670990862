// Files joined to one grammar.
ghost use Rattle.std.specs.Prelude.{ℕ, List, ◌≡◌, ◌≤◌, ◌++◌, map, length, OnOk, IfOk};
ghost use Rattle.lw_load.specs.Loading.{with_file};
ghost use Rattle.lw_load.specs.Paths.{import_path};

use crate::paths::import_path;
use lw_base::{Items, Name, NoMemory};
use lw_grammar::{Grammar, Import, Interface, Rule, Terminal, UnionDef};
use std::alloc::Global;
use std::mem::replace;

/// What a file declares: a rule, a terminal, an interface, a union or an import.
trait Declared: Drop {
    ghost in_file: { List ℕ → ℕ → Self → Self };

    /// The same with the number of its file, an import with the path that it names from the file at this path.
    fn in_file(self, alloc: Global, path: &Name, file: u16) -> Result<Self, NoMemory>
        ensures { IfOk result (λ declared. declared ≡ in_file path.now file self) };
}

impl Declared for Rule {
    ghost in_file = { λ path n rule. record rule { file = n } };

    fn in_file(self, alloc: Global, path: &Name, file: u16) -> Result<Rule, NoMemory> {
        Ok(Rule { file, ..self })
    }
}

impl Declared for Terminal {
    ghost in_file = { λ path n terminal. record terminal { file = n } };

    fn in_file(self, alloc: Global, path: &Name, file: u16) -> Result<Terminal, NoMemory> {
        Ok(Terminal { file, ..self })
    }
}

impl Declared for Interface {
    ghost in_file = { λ path n interface. record interface { file = n } };

    fn in_file(self, alloc: Global, path: &Name, file: u16) -> Result<Interface, NoMemory> {
        Ok(Interface { file, ..self })
    }
}

impl Declared for UnionDef {
    ghost in_file = { λ path n union. record union { file = n } };

    fn in_file(self, alloc: Global, path: &Name, file: u16) -> Result<UnionDef, NoMemory> {
        Ok(UnionDef { file, ..self })
    }
}

impl Declared for Import {
    ghost in_file = { λ path n import. record import { path = import_path path import.path; file = n } };

    fn in_file(self, alloc: Global, path: &Name, file: u16) -> Result<Import, NoMemory> {
        let path = import_path(alloc, path, &self.path)?;
        Ok(Import { path, file, ..self })
    }
}

/// Puts what the file at this path says behind what the grammar has: each thing with the number of the file, each
/// import with the path that it names. What stands in the grammar where memory is refused is not said.
pub(crate) fn join(
    alloc: Global,
    whole: &mut Grammar,
    path: Name,
    mut says: Grammar,
) -> Result<(), NoMemory>
    requires { length whole.old.files ≤ 65535 }
    ensures { OnOk result (whole.new ≡ with_file whole.old path says) }
{
    let file = whole.files.len() as u16;
    put(
        alloc,
        &mut whole.rules,
        taken(alloc, &mut says.rules),
        &path,
        file,
    )?;
    put(
        alloc,
        &mut whole.terminals,
        taken(alloc, &mut says.terminals),
        &path,
        file,
    )?;
    put(
        alloc,
        &mut whole.interfaces,
        taken(alloc, &mut says.interfaces),
        &path,
        file,
    )?;
    put(
        alloc,
        &mut whole.unions,
        taken(alloc, &mut says.unions),
        &path,
        file,
    )?;
    put(
        alloc,
        &mut whole.imports,
        taken(alloc, &mut says.imports),
        &path,
        file,
    )?;
    whole.files.push(path)?;
    Ok(())
}

/// What these items are, of which nothing stays behind.
fn taken<T>(alloc: Global, items: &mut Items<T>) -> Items<T>
    ensures { result ≡ items.old }
{
    replace(items, Items::new(alloc))
}

/// Puts what the file at this path declares behind what other files declare.
fn put<T: Declared>(
    alloc: Global,
    whole: &mut Items<T>,
    says: Items<T>,
    path: &Name,
    file: u16,
) -> Result<(), NoMemory>
    ensures { OnOk result (whole.new ≡ whole.old ++ map (T.in_file path.now file) says) }
{
    let placed = placed(alloc, says, path, file)?;
    whole.append(placed)?;
    Ok(())
}

/// All that the file at this path declares, with the number of the file.
fn placed<T: Declared>(
    alloc: Global,
    mut says: Items<T>,
    path: &Name,
    file: u16,
) -> Result<Items<T>, NoMemory>
    ensures { IfOk result (λ placed. placed ≡ map (T.in_file path.now file) says) }
{
    let mut placed = Vec::with_capacity(alloc, says.len())?;
    while let Some(last) = says.pop() {
        placed.push(last.in_file(alloc, path, file)?)?;
    }
    placed.reverse();
    Ok(Items::from_vec(placed))
}
