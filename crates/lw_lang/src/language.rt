// A language: what a grammar was made into, and reading by it.
ghost use Rattle.std.specs.Prelude.{ℕ, ◌≡◌, ◌≤◌, ◌<◌, IfOk, List, Some, Err, length, slice_get};
ghost use Rattle.lw_base.specs.declared.limits.TheConstants.{LONGEST_DOCUMENT, LONGEST_TEXT};
ghost use Rattle.lw_base.specs.declared.token.Span.{Span};
ghost use Rattle.lw_base.specs.declared.token.Token.{Token as AToken};
ghost use Rattle.lw_builder.specs.Built.{ArePartsOf};
ghost use Rattle.lw_grammar.specs.declared.grammar.Grammar.{Grammar};
ghost use Rattle.lw_grammar.specs.Kinds.{AreKinds, Kinds};
ghost use Rattle.lw_grammar.specs.KindTexts.{AreKindTexts, texts_of};
ghost use Rattle.lw_reading.specs.Reading.{Reads, ReadsBy};
ghost use Rattle.lw_parse.specs.Parsers.{AreOfKinds, ParsesFaultless, TellWays, table_parts};
ghost use Rattle.lw_tokens.specs.Cut.{HasNoTokenAt, IsCharacterAt, IsCut};
ghost use Rattle.lw_tokens.specs.Lexicon.{IsLexicon, Lexicon};
ghost use Rattle.lw_tree.specs.Parts.{Tile};
ghost use Rattle.lw_types.specs.Inferred.{AreTypesOf};
ghost use Rattle.lw_reading.specs.Within.{StandsInText};
ghost use Rattle.lw_reading.specs.Issues.{IfBroken, IfWhole, IsNamed, IsIssueWithin};
ghost use Rattle.lw_lang.specs.Parsing.{CanParse};
ghost use Rattle.lw_lang.specs.Prepared.{IsPrepared};

use lw_base::{KindId, LONGEST_DOCUMENT, Name, NoMemory, Token};
use lw_grammar::Grammar;
use lw_lexer::{LexFault, Lexer, LexerTables};
use lw_lookahead::Tables;
use lw_parse::{ParseFault, Parser};
use lw_reading::{Issue, Parsed};
use lw_types::Types;
use std::alloc::Global;
use std::marker::Model;

/// A grammar made ready to read texts. It is seen as its grammar, the texts by which messages name its kinds, and how many kinds its
/// tables look ahead.
pub struct Language {
    grammar: Grammar,
    types: Types,
    tokens: LexerTables,
    parser: Parser,
}

impl Drop for Language {
    // Spelled out, so that a function which drops a language sees one call and not the parts of all that it is made of.
    fn drop(self) {
        let Language {
            grammar: _,
            types: _,
            tokens: _,
            parser: _,
        } = self;
    }
}

impl Model for Language {
    ghost use Rattle.lw_lang.specs.Language.{LanguageView};

    ghost Value = { LanguageView };

    ghost use Rattle.std.specs.Coded.{codes};
    ghost use Rattle.lw_grammar.specs.contracts.rule.Element as element;
    ghost use Rattle.lw_grammar.specs.contracts.rule.Value0 as value;
    ghost use Rattle.lw_grammar.specs.contracts.terminal.TermElement as term;

    ghost coded = { Prim.hlevel (codes, element.the_row.coded, value.the_row.coded, term.the_row.coded) };

    ghost use Rattle.lw_lang.specs.Ready.{seen_as, IsLanguageReady};

    ghost view = { seen_as };

    ghost invariant = { IsLanguageReady };
}

impl Language {
    // The language of a grammar, by its kinds and what its texts are parsed by.
    pub(crate) fn new(
        grammar: Grammar,
        types: Types,
        tokens: LexerTables,
        parser: Parser,
    ) -> Language
        requires { IsPrepared grammar types tokens parser }
        ensures { result ≡ record { grammar = grammar; texts = tokens.texts; depth = parser.k } }
    {
        Language {
            grammar,
            types,
            tokens,
            parser,
        }
    }

    /// The grammar.
    pub fn grammar(&self) -> &Grammar
        ensures { result.now ≡ self.now.grammar }
    {
        &self.grammar
    }

    /// Its types.
    pub fn types(&self) -> &Types
        ensures { AreTypesOf self.now.grammar result.now }
    {
        &self.types
    }

    /// By what its texts are cut into tokens.
    pub fn tokens(&self) -> &LexerTables
        ensures texts { result.now.texts ≡ self.now.texts }
        ensures named { AreKindTexts self.now.grammar result.now.texts }
        ensures lexicon { (kinds : Kinds) × AreKinds self.now.grammar kinds × IsLexicon self.now.grammar kinds result.now.lexicon }
    {
        &self.tokens
    }

    /// By what the next kinds of a text choose a way. The tables are for windows of as many kinds as were asked for when it was compiled.
    pub fn look(&self) -> &Tables
        ensures { (kinds : Kinds) × AreKinds self.now.grammar kinds × TellWays self.now.grammar kinds self.now.depth (table_parts result.now) }
    {
        self.parser.tables()
    }

    /// What its texts are parsed by.
    pub fn parser(&self) -> &Parser
        ensures parses { (kinds : Kinds) × AreKinds self.now.grammar kinds × (k : ℕ) × ParsesFaultless self.now.grammar kinds k result.now }
        ensures depth { result.now.k ≡ self.now.depth }
    {
        &self.parser
    }

    /// The tokens of a text, hidden ones too, or the first place where no token stands, with the character there. Time is as that of cutting a
    /// text for [`Language::read`].
    pub fn cut(&self, alloc: Global, text: &Name) -> Result<Vec<Token>, LexFault>
        requires short { length text.now ≤ LONGEST_TEXT }
        ensures cut { (kinds : Kinds) (lexicon : Lexicon) → AreKinds self.now.grammar kinds → IsLexicon self.now.grammar kinds lexicon →
            IfOk result (λ tokens. IsCut lexicon text.now tokens.items × ((others : List AToken) → IsCut lexicon text.now others → others ≡ tokens.items)) }
        ensures no_cut { (kinds : Kinds) (lexicon : Lexicon) (s : Span) → AreKinds self.now.grammar kinds → IsLexicon self.now.grammar kinds lexicon →
            result ≡ Err (LexFault.NoToken s) → (tokens : List AToken) → ¬ IsCut lexicon text.now tokens }
        ensures no_token { (kinds : Kinds) (lexicon : Lexicon) (s : Span) → AreKinds self.now.grammar kinds → IsLexicon self.now.grammar kinds lexicon →
            result ≡ Err (LexFault.NoToken s) → HasNoTokenAt lexicon text.now s.start }
        ensures character { (s : Span) → result ≡ Err (LexFault.NoToken s) → IsCharacterAt text.now s }
        ensures of_kinds { (kinds : Kinds) → AreKinds self.now.grammar kinds → IfOk result (λ tokens. AreOfKinds kinds tokens.items) }
        ensures tile { IfOk result (λ tokens. Tile 0 tokens.items) }
        ensures parts { IfOk result (λ tokens. ArePartsOf text.now tokens.items) }
    {
        Lexer::new(alloc, &self.tokens)?.cut(alloc, text)
    }

    /// How messages name a kind: a keyword in single quotes, a terminal by its name.
    pub fn kind_text(&self, kind: KindId) -> &Name
        requires { kind.0 < length self.now.texts }
        ensures text { slice_get self.now.texts kind.0 ≡ Some result.now }
        ensures all { AreKindTexts self.now.grammar self.now.texts }
    {
        self.tokens.set().kind_text(kind)
    }

    /// What the text reads as: its tree, or its one fault. The one error is want of memory.
    ///
    /// At each token a pattern is tried once at most, at its start: time is linear in the length of the text where a pattern looks no
    /// further than it matches, and up to quadratic elsewhere. Parsing is linear in the tokens; where they are no sentence, they are
    /// gone through once more, with all readings that they leave open, for the first that cannot stand.
    pub fn read(&self, alloc: Global, text: &Name) -> Result<Parsed, NoMemory>
        ensures reads { IfOk result (Reads self.now.grammar text.now) }
        ensures named { IfOk result (λ parsed. IfBroken parsed (IsNamed self.now.texts)) }
        ensures within { IfOk result (λ parsed. IfBroken parsed (IsIssueWithin text.now)) }
        ensures stands { IfOk result (λ parsed. IfWhole parsed (StandsInText text.now)) }
    {
        let length = text.bytes().len();
        if length > LONGEST_DOCUMENT {
            return Ok(Parsed::Broken(Issue::TooLarge));
        }
        match Lexer::new(alloc, &self.tokens)?.cut(alloc, text) {
            Ok(tokens) => parsed(alloc, &self.parser, text, tokens),
            Err(LexFault::NoToken(span)) => Ok(Parsed::Broken(Issue::Lexical(span))),
            Err(LexFault::NoMemory) => Err(NoMemory),
        }
    }
}

/// What the tokens of a text are: its tree, or the first that cannot stand, or the text's end.
fn parsed(
    alloc: Global,
    parser: &Parser,
    text: &Name,
    tokens: Vec<Token>,
) -> Result<Parsed, NoMemory>
    requires short { length text.now ≤ LONGEST_DOCUMENT }
    requires cut { (g : Grammar) × (kinds : Kinds) × (lexicon : Lexicon) × CanParse g kinds lexicon parser.now text.now tokens.items }
    ensures reads { (g : Grammar) (kinds : Kinds) (lexicon : Lexicon) → CanParse g kinds lexicon parser.now text.now tokens.items →
        IfOk result (ReadsBy g kinds lexicon text.now) }
    ensures named { (g : Grammar) (kinds : Kinds) (lexicon : Lexicon) → CanParse g kinds lexicon parser.now text.now tokens.items →
        IfOk result (λ parsed. IfBroken parsed (IsNamed (texts_of kinds))) }
    ensures within { (g : Grammar) (kinds : Kinds) (lexicon : Lexicon) → CanParse g kinds lexicon parser.now text.now tokens.items →
        IfOk result (λ parsed. IfBroken parsed (IsIssueWithin text.now)) }
    ensures stands { (g : Grammar) (kinds : Kinds) (lexicon : Lexicon) → CanParse g kinds lexicon parser.now text.now tokens.items →
        IfOk result (λ parsed. IfWhole parsed (StandsInText text.now)) }
{
    match parser.parse(alloc, text, tokens) {
        Ok(tree) => Ok(Parsed::Whole(tree)),
        Err(ParseFault::Unexpected(_, token)) => {
            Ok(Parsed::Broken(Issue::Syntax(token.span, token.kind)))
        }
        Err(ParseFault::UnexpectedEnd) => Ok(Parsed::Broken(Issue::End(text.bytes().len() as u32))),
        Err(ParseFault::NoMemory) => Err(NoMemory),
    }
}
