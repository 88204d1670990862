// A walk over the files of a grammar.
ghost use Rattle.std.specs.Prelude.{◌≡◌, ◌≢◌, ◌≤◌, ◌++◌, ◌⊎◌, ◌+◌, ◌<◌, [], ◌∷◌, length, map, MatchBool, if◌then◌else◌, reverse, OnOk, IfOk, IfErr, IfSome, Contains};
ghost use Rattle.lw_grammar.specs.Size.{size};
ghost use Rattle.lw_gramread.specs.Syntax.{bare_grammar};
ghost use Rattle.lw_load.specs.declared.limits.TheConstants.{LARGEST_GRAMMAR};
ghost use Rattle.lw_load.specs.declared.fault.LoadFault.TheVariants.{TooLarge as too_large, NoMemory as no_memory};
ghost use Rattle.lw_load.specs.Paths.{import_path, walked};
ghost use Rattle.lw_load.specs.Loading.{with_file};
ghost use Rattle.lw_load.specs.LoadFaults.{CountsLoad};
ghost use Rattle.lw_load.specs.Opening.{CannotLoad};
ghost use Rattle.lw_load.specs.Walking.{Adds, BeginsWalk, Goes};

use crate::fault::LoadFault;
use crate::join::join;
use crate::limits::LARGEST_GRAMMAR;
use crate::loader::Loaded;
use crate::opening::{Opened, open};
use crate::paths::{import_path, walked};
use crate::size::size_of;
use indexmap::IndexSet;
use lw_base::{Items, Name, NoMemory};
use lw_grammar::{Grammar, Import};
use lw_io::Store;
use std::alloc::Global;

/// How far a walk has come.
pub(crate) struct Walk {
    /// What the files that were loaded say together.
    pub(crate) whole: Grammar,
    /// The texts of these files.
    pub(crate) texts: Items<Name>,
    /// The paths by which these files are compared.
    pub(crate) seen: IndexSet<Name>,
    /// The paths of the imports that wait, the next one last.
    pub(crate) waiting: Vec<Name>,
    /// How large the files are together.
    pub(crate) size: usize,
}

impl Drop for Walk {
    // In one place, so that whoever drops such a value sees one call and not the drops of all its parts.
    fn drop(self) {
        let Walk {
            whole: _,
            texts: _,
            seen: _,
            waiting: _,
            size: _,
        } = self;
    }
}

impl Walk {
    /// Loads the root.
    pub(crate) fn begin<F: Store>(
        alloc: Global,
        root: &Name,
        store: &mut F,
    ) -> Result<Walk, LoadFault>
        ensures begins { IfOk result (BeginsWalk (F.files store.old) root.now) }
        ensures fault { IfErr result (λ fault. IfSome (F.files store.old) (λ files. CannotLoad files 0 root.now fault)) }
        ensures store { CountsLoad (F.count store.old) (F.count store.new) result }
        ensures files { F.files store.new ≡ F.files store.old }
    {
        let file = open(alloc, root.copy(alloc)?, store)?;
        let mut walk = Walk::empty(alloc, root, &file.says.name)?;
        walk.add(alloc, file)?;
        Ok(walk)
    }

    /// A walk that is about to load the root, whose grammar has this name.
    fn empty(alloc: Global, root: &Name, name: &Name) -> Result<Walk, NoMemory>
        ensures whole { IfOk result (λ walk. walk.whole ≡ bare_grammar name.now []) }
        ensures texts { IfOk result (λ walk. walk.texts ≡ []) }
        ensures seen { IfOk result (λ walk. walk.seen.keys ≡ walked root.now ∷ []) }
        ensures waiting { IfOk result (λ walk. walk.waiting.items ≡ []) }
        ensures size { IfOk result (λ walk. walk.size ≡ 0) }
    {
        let whole = bare(alloc, name)?;
        let path = walked(alloc, root)?;
        let mut walk = Walk {
            whole,
            texts: Items::new(alloc),
            seen: IndexSet::new(alloc),
            waiting: Vec::new(alloc),
            size: 0,
        };
        mark(&mut walk.seen, path)?;
        Ok(walk)
    }

    /// Loads the file at this path, unless it was loaded.
    pub(crate) fn visit<F: Store>(
        &mut self,
        alloc: Global,
        path: Name,
        store: &mut F,
    ) -> Result<(), LoadFault>
        requires { length self.old.whole.files ≤ 65535 }
        ensures goes { OnOk result (Goes (F.files store.old) path self.old self.new) }
        ensures fresh { IfErr result (λ fault. fault ≢ no_memory → ¬ Contains self.old.seen.keys path) }
        ensures fault { IfErr result (λ fault. IfSome (F.files store.old) (λ files. CannotLoad files self.old.size path fault)) }
        ensures store { CountsLoad (F.count store.old) (F.count store.new) result }
        ensures files { F.files store.new ≡ F.files store.old }
    {
        if !mark(&mut self.seen, path.copy(alloc)?)? {
            return Ok(());
        }
        let file = open(alloc, path, store)?;
        self.add(alloc, file)
    }

    /// What was loaded.
    pub(crate) fn into_loaded(self) -> Loaded
        ensures { result ≡ record { grammar = self.whole; texts = self.texts } }
    {
        let Walk {
            whole: grammar,
            texts,
            seen: _,
            waiting: _,
            size: _,
        } = self;
        Loaded { grammar, texts }
    }

    /// Puts the file behind those that were loaded, where they are not too large with it.
    fn add(&mut self, alloc: Global, file: Opened) -> Result<(), LoadFault>
        requires { length self.old.whole.files ≤ 65535 }
        ensures adds { OnOk result (Adds self.old file self.new) }
        ensures seen { self.new.seen.keys ≡ self.old.seen.keys }
        ensures fault { IfErr result (λ fault. (fault ≡ no_memory)
            ⊎ ((fault ≡ too_large file.path) × (LARGEST_GRAMMAR < self.old.size + size file.says))) }
    {
        let size = self.size.saturating_add(size_of(&file.says));
        if size > LARGEST_GRAMMAR {
            return Err(LoadFault::TooLarge(file.path));
        }
        self.size = size;
        self.put(alloc, file)?;
        Ok(())
    }

    /// Puts the file behind those that were loaded, and its imports before all that waits.
    fn put(&mut self, alloc: Global, file: Opened) -> Result<(), NoMemory>
        requires { length self.old.whole.files ≤ 65535 }
        ensures whole { OnOk result (self.new.whole ≡ with_file self.old.whole file.path file.says) }
        ensures texts { OnOk result (self.new.texts ≡ self.old.texts ++ file.text ∷ []) }
        ensures waiting { OnOk result
            (self.new.waiting.items ≡ self.old.waiting.items ++ reverse (map (λ i. import_path file.path i.path) file.says.imports)) }
        ensures seen { self.new.seen.keys ≡ self.old.seen.keys }
        ensures size { self.new.size ≡ self.old.size }
    {
        put_imports(
            alloc,
            &mut self.waiting,
            &file.path,
            file.says.imports.as_slice(),
        )?;
        self.texts.push(file.text)?;
        join(alloc, &mut self.whole, file.path, file.says)
    }
}

/// Puts the path behind those that were seen, and says whether it is new.
fn mark(seen: &mut IndexSet<Name>, path: Name) -> Result<bool, NoMemory>
    ensures new { IfOk result (λ new. MatchBool new (¬ Contains seen.old.keys path) (Contains seen.old.keys path)) }
    ensures keys { IfOk result (λ new. seen.new.keys ≡ (if new then seen.old.keys ++ path ∷ [] else seen.old.keys)) }
{
    Ok(seen.insert(path)?)
}

/// Puts what the file at `importer` imports before all that waits.
fn put_imports(
    alloc: Global,
    waiting: &mut Vec<Name>,
    importer: &Name,
    imports: &[Import],
) -> Result<(), NoMemory>
    ensures { OnOk result
        (waiting.new.items ≡ waiting.old.items ++ reverse (map (λ i. import_path importer.now i.path) imports.now)) }
{
    'putting: for import in imports.iter().rev() {
        waiting.push(import_path(alloc, importer, &import.path)?)?;
    }
    Ok(())
}

/// A grammar of this name that declares nothing.
fn bare(alloc: Global, name: &Name) -> Result<Grammar, NoMemory>
    ensures { IfOk result (λ grammar. grammar ≡ bare_grammar name.now []) }
{
    Ok(Grammar {
        name: name.copy(alloc)?,
        files: Items::new(alloc),
        rules: Items::new(alloc),
        terminals: Items::new(alloc),
        interfaces: Items::new(alloc),
        unions: Items::new(alloc),
        imports: Items::new(alloc),
    })
}
