// The summary of a workspace.
ghost use Rattle.std.specs.Prelude.{◌≡◌, ◌+◌, ◌++◌, ◌∷◌, [], List, true, IfOk, length, string_bytes};
ghost use Rattle.std.specs.Option.{option_map};
ghost use Rattle.lw_build.specs.View.{documents};
ghost use Rattle.lw_machine.specs.declared.published.Published.{Published};
ghost use Rattle.lw_make.specs.Counting.{last_of, missing_in, nodes_seen, references_in, with_one};
ghost use Rattle.lw_make.specs.Summaries.{IsSummary, listed, summary_line, summary_text as lines_of};

use lw_base::{Name, NoMemory};
use lw_build::Workspace;
use lw_index::Answer;
use lw_query::View;
use lw_tree::Tree;
use std::alloc::Global;
use std::fmt::Write;

/// What a workspace holds, and how many lists were published on the way to it.
#[derive(Clone, Copy, Debug, PartialEq, Eq)]
pub struct Summary {
    /// The documents.
    pub documents: u64,
    /// The nodes of all trees.
    pub nodes: u64,
    /// The references of all trees.
    pub references: u64,
    /// Those of them that lead nowhere.
    pub unresolved: u64,
    /// The diagnostics of all lists.
    pub diagnostics: u64,
    /// The lists that were published, from the first document on.
    pub published: u64,
}

/// A sum with so many more. What is counted lies in memory: where no `u64` holds the sum, there is no memory for it either.
pub(crate) fn added(sum: u64, more: usize) -> Result<u64, NoMemory>
    ensures { IfOk result (λ total. total ≡ sum + more) }
{
    match sum.checked_add(more as u64) {
        Some(total) => Ok(total),
        None => Err(NoMemory),
    }
}

/// One for an answer that leads nowhere.
fn nowhere(answer: Answer) -> usize
    ensures { result ≡ missing_in (answer ∷ []) }
{
    match answer {
        Answer::Missing => 1,
        Answer::Found(_) => 0,
    }
}

/// How many of these lead nowhere.
fn missing(answers: &[Answer]) -> usize
    ensures { result ≡ missing_in answers.now }
{
    let mut count = 0;
    'answers: for answer in answers {
        count += nowhere(*answer);
    }
    count
}

/// How many nodes and references a document has, where it has a tree.
fn tables_of(tree: Option<&Tree>) -> (usize, usize)
    ensures nodes { result.0 ≡ nodes_seen (option_map (λ tree. tree.now) tree.entry) }
    ensures references { result.1 ≡ references_in (option_map (λ tree. tree.now) tree.entry) }
{
    match tree {
        Some(tree) => (tree.len() as usize, tree.refs().len()),
        None => (0, 0),
    }
}

impl Summary {
    /// The summary with one document more, whose last list has so many diagnostics.
    fn with_one(self, view: &View<'_>, diagnostics: usize) -> Result<Summary, NoMemory>
        ensures { IfOk result (λ summary. summary ≡ with_one self view.now diagnostics) }
    {
        let (nodes, references) = tables_of(view.tree);
        Ok(Summary {
            documents: added(self.documents, 1)?,
            nodes: added(self.nodes, nodes)?,
            references: added(self.references, references)?,
            unresolved: added(self.unresolved, missing(view.answers))?,
            diagnostics: added(self.diagnostics, diagnostics)?,
            published: self.published,
        })
    }
}

/// How many diagnostics the last list of a document has.
fn diagnostics_of(workspace: &Workspace, uri: &Name) -> usize
    ensures { result ≡ listed (last_of workspace.now.kept uri.now) }
{
    match workspace.published(uri) {
        Some(list) => list.len(),
        None => 0,
    }
}

/// Sums up a workspace in which nothing is left to do, where so many lists were published.
pub(crate) fn summary_of(
    alloc: Global,
    workspace: &Workspace,
    published: u64,
) -> Result<Summary, NoMemory>
    requires { workspace.now.is_built ≡ true }
    ensures { IfOk result (λ summary. (lists : List Published) → length lists ≡ published →
        IsSummary workspace.now.setting (documents workspace.now) lists summary) }
{
    let mut summary = Summary {
        documents: 0,
        nodes: 0,
        references: 0,
        unresolved: 0,
        diagnostics: 0,
        published,
    };
    let views = workspace.views(alloc)?;
    'views: for view in &views {
        summary = summary.with_one(view, diagnostics_of(workspace, view.uri))?;
    }
    Ok(summary)
}

fn write_line(out: &mut String, what: &str, count: u64) -> Result<(), NoMemory>
    ensures { IfOk result (λ _. string_bytes out.new ≡ string_bytes out.old ++ summary_line what.now count) }
{
    writeln!(out, "{what} {count}")?;
    Ok(())
}

/// The lines of a summary.
pub fn summary_text(alloc: Global, summary: &Summary) -> Result<Name, NoMemory>
    ensures { IfOk result (λ text. text ≡ lines_of summary.now) }
{
    let mut text = String::new(alloc);
    write_line(&mut text, "documents", summary.documents)?;
    write_line(&mut text, "nodes", summary.nodes)?;
    write_line(&mut text, "references", summary.references)?;
    write_line(&mut text, "unresolved", summary.unresolved)?;
    write_line(&mut text, "diagnostics", summary.diagnostics)?;
    write_line(&mut text, "published", summary.published)?;
    Ok(Name::from_string(text))
}
