// The trees that readings leave, once what is not finished is closed.
ghost use Rattle.std.specs.Prelude.{ℕ, ◌↔◌, List, Any, IfOk, IsTrue};
ghost use Rattle.lw_builder.specs.Built.{ArePartsOf};
ghost use Rattle.lw_grammar.specs.declared.grammar.Grammar.{Grammar};
ghost use Rattle.lw_grammar.specs.Kinds.{Kinds};
ghost use Rattle.lw_reading.specs.Trees.{IsOpenedTree};
ghost use Rattle.lw_parse.specs.Parsers.{AreOfKinds, ParsesFaultless};
ghost use Rattle.lw_program.specs.Making.{AreRecipesOf};
ghost use Rattle.lw_program.specs.Meant.{AreMeant};
ghost use Rattle.lw_reading.specs.Growing.{GrowsOpen};
ghost use Rattle.lw_grammar.specs.Marks.{Mark};
ghost use Rattle.lw_tokens.specs.Cut.{kinds, visible};
ghost use Rattle.lw_tree.specs.Parts.{SameTables, Tile};
ghost use Rattle.lw_parse.specs.Readings.{AreOpenTrees, MeanReadings};

use crate::Parser;
use crate::opened::readings::readings_of;
use lw_base::{Items, Name, NoMemory, Token};
use lw_builder::tree_of;
use lw_program::recipes::{Recipes, TreeMark};
use lw_tree::Tree;
use std::alloc::Global;

/// The trees opened of the readings of these tokens of the text, each once.
///
/// It is linear in what keeping the readings comes to, and, for each reading, in the tokens and marks, and in the trees that were found
/// before: no two of these are the same, and each is compared with the tree in time linear in that at most.
pub fn open_trees(
    alloc: Global,
    parser: &Parser,
    text: &Name,
    tokens: &[Token],
) -> Result<Vec<Tree>, NoMemory>
    requires known { (g : Grammar) × (of : Kinds) × (k : ℕ) × ParsesFaultless g of k parser.now × AreOfKinds of tokens.now }
    requires tile { Tile 0 tokens.now }
    requires parts { ArePartsOf text.now tokens.now }
    ensures { (g : Grammar) (of : Kinds) (k : ℕ) → ParsesFaultless g of k parser.now → AreOfKinds of tokens.now →
        IfOk result (λ trees. AreOpenTrees g of parser.now.entry text.now tokens.now trees.items) }
{
    let readings = readings_of(alloc, parser, tokens)?;
    trees_of(alloc, parser, text, tokens, readings.as_slice())
}

/// The trees of these readings, each once.
fn trees_of(
    alloc: Global,
    parser: &Parser,
    text: &Name,
    tokens: &[Token],
    readings: &[Items<TreeMark>],
) -> Result<Vec<Tree>, NoMemory>
    requires known { (g : Grammar) × (of : Kinds) × (k : ℕ) × ParsesFaultless g of k parser.now
        × MeanReadings g of parser.now.entry (kinds (visible tokens.now)) readings.now }
    requires tile { Tile 0 tokens.now }
    requires parts { ArePartsOf text.now tokens.now }
    ensures { (g : Grammar) (of : Kinds) (k : ℕ) → ParsesFaultless g of k parser.now →
        MeanReadings g of parser.now.entry (kinds (visible tokens.now)) readings.now →
        IfOk result (λ trees. AreOpenTrees g of parser.now.entry text.now tokens.now trees.items) }
{
    let recipes = parser.recipes();
    let mut trees = Vec::new(alloc);
    'readings: for marks in readings {
        let tree = opened_tree(alloc, recipes, text, tokens, marks.as_slice())?;
        if !is_among(trees.as_slice(), &tree) {
            trees.push(tree)?;
        }
    }
    Ok(trees)
}

/// Whether one of the trees is the same as this one.
fn is_among(trees: &[Tree], tree: &Tree) -> bool
    ensures { IsTrue result ↔ Any (λ known. SameTables known tree.now) trees.now }
{
    trees.iter().any(|known| known.is_same(tree))
}

/// The tree opened of these marks, which the visible ones of these tokens of the text were read with.
pub fn opened_tree(
    alloc: Global,
    recipes: &Recipes,
    text: &Name,
    tokens: &[Token],
    marks: &[TreeMark],
) -> Result<Tree, NoMemory>
    requires known { (g : Grammar) × (m : List Mark) × AreRecipesOf g recipes.now × AreMeant g marks.now m × GrowsOpen g text.now m (visible tokens.now) }
    requires tile { Tile 0 tokens.now }
    requires parts { ArePartsOf text.now tokens.now }
    ensures { (g : Grammar) (m : List Mark) → AreRecipesOf g recipes.now → AreMeant g marks.now m → GrowsOpen g text.now m (visible tokens.now) →
        IfOk result (IsOpenedTree g text.now m (visible tokens.now) tokens.now) }
{
    let tokens = Vec::from_slice(alloc, tokens)?;
    tree_of(alloc, recipes, marks, tokens, text)
}
