// Whole grammar files.
ghost use Rattle.std.specs.Prelude.{◌≡◌, ◌+◌, ◌<◌, ◌≤◌, [], ◌∷◌, length, map, IfOk, OnOk};
ghost use Rattle.lw_gramread.specs.Steps.{ReadsAs};
ghost use Rattle.lw_gramread.specs.TypeSteps.{deepest};
ghost use Rattle.lw_gramread.specs.FileSteps.{file, grammar_name, imports, import, all_items, next_item};
ghost use Rattle.lw_gramread.specs.Syntax.{with_item, bare_grammar};

use super::left::{Left, Spot, Stop};
use super::rules::rule;
use super::terminals::terminal;
use super::types::{interface, union_type};
use crate::lexeme::Reserved;
use lw_base::{Items, Name, NoMemory};
use lw_gramlex::Symbol;
use lw_grammar::{Grammar, Import, Interface, Rule, Terminal, UnionDef};
use std::alloc::Global;

// What a file declares.
#[derive(Drop)]
pub(crate) enum Item {
    Interface(Interface),
    Union(UnionDef),
    Rule(Rule),
    Terminal(Terminal),
}

/// ('grammar' Word)? Import* Item*, up to the end of the file.
#[tactic(auto, unfolding(crate::specs::FileSteps::file, crate::specs::FileSteps::all_items))]
pub(crate) fn file(alloc: Global, left: &mut Left<'_>) -> Result<Grammar, Stop>
    ensures reads { ReadsAs (file deepest left.old) result left.new }
    ensures shorter { length left.new ≤ length left.old }
{
    let name = grammar_name(alloc, left)?;
    let imports = imports(alloc, left)?;
    items(alloc, left, name, imports)
}

// ('grammar' Word)?
#[tactic(auto, unfolding(crate::specs::FileSteps::grammar_name))]
fn grammar_name(alloc: Global, left: &mut Left<'_>) -> Result<Name, Stop>
    ensures reads { ReadsAs (grammar_name left.old) result left.new }
    ensures shorter { length left.new ≤ length left.old }
{
    if !left.takes_reserved(Reserved::Grammar) {
        return Ok(Name::from_text(alloc, "")?);
    }
    let (name, _) = left.name(alloc, Spot::Elsewhere)?;
    Ok(name)
}

#[tactic(auto, unfolding(crate::specs::FileSteps::imports))]
fn imports(alloc: Global, left: &mut Left<'_>) -> Result<Items<Import>, Stop>
    ensures reads { ReadsAs (imports left.old) result left.new }
    ensures shorter { length left.new ≤ length left.old }
{
    let mut imports = Items::new(alloc);
    'more: while left.takes_reserved(Reserved::Import) {
        let next = import(alloc, left)?;
        imports.push(next)?;
    }
    Ok(imports)
}

// String ';'?, behind the word `import`.
#[tactic(auto, unfolding(crate::specs::FileSteps::import))]
fn import(alloc: Global, left: &mut Left<'_>) -> Result<Import, Stop>
    ensures reads { ReadsAs (import left.old) result left.new }
    ensures shorter { length left.new ≤ length left.old }
{
    let (path, span) = left.text(alloc, Spot::Elsewhere)?;
    left.takes(Symbol::Semicolon);
    Ok(Import {
        path,
        file: 0,
        span,
    })
}

// Item*, up to the end of the file.
#[tactic(auto, unfolding(crate::specs::FileSteps::all_items))]
fn items(
    alloc: Global,
    left: &mut Left<'_>,
    name: Name,
    imports: Items<Import>,
) -> Result<Grammar, Stop>
    ensures reads { ReadsAs (all_items deepest name imports left.old) result left.new }
    ensures shorter { length left.new ≤ length left.old }
{
    let mut grammar = bare_grammar(alloc, name, imports);
    'more: while !left.is_empty() {
        let next = next_item(alloc, left)?;
        put(&mut grammar, next)?;
    }
    Ok(grammar)
}

// A grammar that declares nothing.
fn bare_grammar(alloc: Global, name: Name, imports: Items<Import>) -> Grammar
    ensures { result ≡ bare_grammar name imports }
{
    Grammar {
        name,
        files: Items::new(alloc),
        rules: Items::new(alloc),
        terminals: Items::new(alloc),
        interfaces: Items::new(alloc),
        unions: Items::new(alloc),
        imports,
    }
}

// Puts an item behind those of its kind.
fn put(grammar: &mut Grammar, item: Item) -> Result<(), NoMemory>
    ensures { OnOk result (grammar.new ≡ with_item grammar.old item) }
{
    match item {
        Item::Interface(interface) => grammar.interfaces.push(interface)?,
        Item::Union(union_type) => grammar.unions.push(union_type)?,
        Item::Rule(rule) => grammar.rules.push(rule)?,
        Item::Terminal(terminal) => grammar.terminals.push(terminal)?,
    }
    Ok(())
}

// Interface | Union | ParserRule | Terminal
#[tactic(auto, unfolding(crate::specs::FileSteps::next_item, crate::specs::FileSteps::union_item, crate::specs::FileSteps::hidden_item, crate::specs::FileSteps::shown_item))]
fn next_item(alloc: Global, left: &mut Left<'_>) -> Result<Item, Stop>
    ensures reads { ReadsAs (next_item deepest left.old) result left.new }
    ensures shorter { length left.new ≤ length left.old }
    ensures taken { OnOk result (length left.new < length left.old) }
{
    if left.takes_reserved(Reserved::Interface) {
        return Ok(Item::Interface(interface(alloc, left)?));
    }
    if left.takes_reserved(Reserved::Type) {
        return Ok(Item::Union(union_type(alloc, left)?));
    }
    if left.takes_reserved(Reserved::Hidden) {
        left.reserved(Reserved::Terminal, Spot::Terminal)?;
        return Ok(Item::Terminal(terminal(alloc, left, true)?));
    }
    if left.takes_reserved(Reserved::Terminal) {
        return Ok(Item::Terminal(terminal(alloc, left, false)?));
    }
    Ok(Item::Rule(rule(alloc, left)?))
}
