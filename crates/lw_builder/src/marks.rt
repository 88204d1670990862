// What each mark does, and the tree at the end.
ghost use Rattle.std.specs.Prelude.{ℕ, ◌≡◌, List, [], ◌∷◌, ◌++◌, IfOk, OnOk, take};
ghost use Rattle.lw_grammar.specs.declared.grammar.Grammar.{Grammar};
ghost use Rattle.lw_grammar.specs.Marks.{Mark};
ghost use Rattle.lw_reading.specs.Brackets.{Bracket};
ghost use Rattle.lw_reading.specs.Follows.{Closes, FollowsMarks};
ghost use Rattle.lw_reading.specs.Grown.{Grown};
ghost use Rattle.lw_reading.specs.Trees.{IsOpenedTree, parts_of_tree};
ghost use Rattle.lw_program.specs.Making.{AreRecipesOf};
ghost use Rattle.lw_program.specs.Meant.{AreMeant, MeansMark};
ghost use Rattle.lw_tree.specs.Parts.{SameTables, Tile};
ghost use Rattle.lw_builder.specs.Built.{ArePartsOf, GoesOnBy, HasFollowed, IsOverSame, visible_of};

use crate::Builder;
use crate::finishing::place_behind;
use crate::preorder::in_preorder;
use lw_base::{Name, NoMemory, Token};
use lw_program::recipes::{Recipes, TreeMark};
use lw_tree::Tree;
use std::alloc::Global;

impl<'a> Builder<'a> {
    /// Nothing is built yet of the text with these visible tokens.
    pub fn new(
        alloc: Global,
        recipes: &'a Recipes,
        text: &'a Name,
        visible: &'a [Token],
    ) -> Builder<'a>
        ensures nothing { (g : Grammar) → AreRecipesOf g recipes.now → ArePartsOf text.now visible.now → HasFollowed g [] [] result }
        ensures over { (result.text.now ≡ text.now) × (result.visible.now ≡ visible.now) × (result.recipes.now ≡ recipes.now) }
    {
        Builder {
            recipes,
            text,
            visible,
            read: 0,
            finished: Vec::new(alloc),
            kept: Vec::new(alloc),
            loose: Vec::new(alloc),
            refs: Vec::new(alloc),
            brackets: Vec::new(alloc),
        }
    }

    /// FollowsMarks one more mark.
    pub fn mark(&mut self, mark: TreeMark) -> Result<(), NoMemory>
        requires goes_on { (g : Grammar) × (m : List Mark) × (x : Mark) × (bs : List Bracket) × (after : List Bracket) ×
            HasFollowed g m bs self.old × MeansMark g mark x × GoesOnBy g self.old x bs after }
        ensures followed { (g : Grammar) (m : List Mark) (x : Mark) (bs after : List Bracket) → HasFollowed g m bs self.old → MeansMark g mark x →
            GoesOnBy g self.old x bs after → OnOk result (HasFollowed g (m ++ x ∷ []) after self.new) }
        ensures over { IsOverSame self.old self.new }
    {
        match mark {
            TreeMark::Token(_) => {
                self.read += 1;
                Ok(())
            }
            TreeMark::Open(rule) => self.begin(rule),
            TreeMark::Shut => self.shut(),
            TreeMark::Put(put) => self.put(put),
            TreeMark::End => self.end(),
            TreeMark::Act(act) => self.act(act),
        }
    }

    /// The tree that is there once all that is open is closed, the innermost first; a reference that is not finished is left out.
    pub fn tree(mut self, tokens: Vec<Token>) -> Result<Tree, NoMemory>
        requires closes { (g : Grammar) × (m : List Mark) × (bs : List Bracket) × (x : Grown) × HasFollowed g m bs self ×
            Closes g self.text.now (take self.read self.visible.now) bs x }
        requires tokens { Tile 0 tokens.items }
        ensures { (g : Grammar) (m : List Mark) (bs : List Bracket) (x : Grown) → HasFollowed g m bs self.entry →
            Closes g self.entry.text.now (take self.entry.read self.entry.visible.now) bs x →
            IfOk result (λ tree. SameTables tree (parts_of_tree x tokens.items self.entry.recipes.now.naming)) }
    {
        self.close()?;
        place_behind(self.finished.len())?;
        let alloc = *self.finished.allocator();
        let name = self.recipes.name();
        in_preorder(alloc, self.finished, self.kept, self.refs, tokens, name)
    }
}

/// The tree of marks by which some of the tokens of the text, those that are not hidden, were read.
pub fn tree_of(
    alloc: Global,
    recipes: &Recipes,
    marks: &[TreeMark],
    tokens: Vec<Token>,
    text: &Name,
) -> Result<Tree, NoMemory>
    requires follows { (g : Grammar) × (m : List Mark) × (bs : List Bracket) × (x : Grown) × AreRecipesOf g recipes.now × AreMeant g marks.now m ×
        FollowsMarks g text.now m (visible_of tokens.items) bs × Closes g text.now (visible_of tokens.items) bs x }
    requires tokens { Tile 0 tokens.items }
    requires parts { ArePartsOf text.now tokens.items }
    ensures { (g : Grammar) (m : List Mark) (bs : List Bracket) (x : Grown) → AreRecipesOf g recipes.now → AreMeant g marks.now m →
        FollowsMarks g text.now m (visible_of tokens.items) bs → Closes g text.now (visible_of tokens.items) bs x →
        IfOk result (IsOpenedTree g text.now m (visible_of tokens.items) tokens.items) }
{
    let visible = visible_of(alloc, tokens.as_slice())?;
    let mut builder = with_room(alloc, recipes, text, visible.as_slice(), marks)?;
    'marks: for mark in marks {
        builder.mark(*mark)?;
    }
    builder.tree(tokens)
}

/// Nothing is built yet of the text with these visible tokens. There is room for the nodes and the values of these marks, so that what was
/// built is not moved.
fn with_room<'a>(
    alloc: Global,
    recipes: &'a Recipes,
    text: &'a Name,
    visible: &'a [Token],
    marks: &[TreeMark],
) -> Result<Builder<'a>, NoMemory>
    ensures nothing { (g : Grammar) → AreRecipesOf g recipes.now → ArePartsOf text.now visible.now → IfOk result (HasFollowed g [] []) }
    ensures over { IfOk result (λ builder. (builder.text.now ≡ text.now) × (builder.visible.now ≡ visible.now) × (builder.recipes.now ≡ recipes.now)) }
{
    let mut builder = Builder::new(alloc, recipes, text, visible);
    let nodes = marks.iter().filter(|mark| matches!(mark, TreeMark::Shut));
    builder.finished.reserve(nodes.count())?;
    let values = marks.iter().filter(|mark| matches!(mark, TreeMark::End));
    builder.kept.reserve(values.count())?;
    Ok(builder)
}

/// The tokens that are not hidden.
fn visible_of(alloc: Global, tokens: &[Token]) -> Result<Vec<Token>, NoMemory>
    ensures { IfOk result (λ visible. visible.items ≡ visible_of tokens.now) }
{
    let visible = tokens
        .iter()
        .filter(|token| !token.hidden)
        .copied()
        .collect(alloc)?;
    Ok(visible)
}
