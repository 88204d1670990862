// The forms of Langium's grammar language that are left out.
ghost use Rattle.std.specs.Prelude.{◌≡◌, Some};
ghost use Rattle.lw_gramread.specs.FormTexts.{form_text};
ghost use Rattle.lw_gramread.specs.Forms.{form_told, form_of_symbol, is_hidden, is_name, is_in_head, is_in_rule, is_first_name, is_in_terminal, is_behind_type, last_token, begins_infix};
ghost use Rattle.lw_gramread.specs.Steps.{sees};

use crate::lexeme::{Lexeme, Reserved};
use crate::reader::left::Spot;
use lw_gramlex::Symbol;
use std::fmt;

/// A form of Langium's grammar language that is left out, told by the first token of it that cannot follow.
#[derive(Clone, Copy, Debug, PartialEq, Eq)]
pub enum Form {
    /// `&`
    UnorderedGroup,
    /// `<`
    GuardOrParameter,
    /// `=>`, or `->` in a parser rule.
    Predicate,
    /// `->` in a terminal.
    Until,
    /// `!` in a terminal.
    Negation,
    /// `.` in a terminal.
    Wildcard,
    /// `?` or `?=` directly behind `(` in a terminal.
    Lookaround,
    /// `*` directly behind a parser rule's name.
    WildcardFragment,
    /// `=` behind an attribute's type.
    PropertyDefault,
    /// `+` directly behind `[`.
    MultiReference,
    /// A regular expression with flags.
    RegexFlags,
    /// `hidden` behind a parser rule's name or type.
    HiddenList,
    /// A word directly behind the word `infix` where a rule begins.
    InfixRule,
}

impl Form {
    /// How messages name the form.
    pub fn text(self) -> &'static str
        ensures { result.now ≡ form_text self }
    {
        match self {
            Form::UnorderedGroup => "unordered group",
            Form::GuardOrParameter => "guard or parameter",
            Form::Predicate => "predicate",
            Form::Until => "until",
            Form::Negation => "negation",
            Form::Wildcard => "wildcard",
            Form::Lookaround => "lookaround",
            Form::WildcardFragment => "wildcard fragment",
            Form::PropertyDefault => "property default",
            Form::MultiReference => "multi-reference",
            Form::RegexFlags => "regex flags",
            Form::HiddenList => "hidden list",
            Form::InfixRule => "infix rule",
        }
    }
}

impl fmt::Display for Form {
    ghost output = { λ form. Some (form_text form) };

    fn fmt<W: fmt::Write>(&self, f: &mut fmt::Formatter<W>) -> fmt::Result {
        f.write_str(self.text())
    }
}

/// The form that a token tells which cannot follow, by the spot and the tokens before it.
#[tactic(auto, unfolding(crate::specs::Steps::same_symbol))]
pub(crate) fn form_of(spot: Spot, before: &[Lexeme], token: &Lexeme) -> Option<Form>
    ensures { result ≡ form_told spot before.now token.now }
{
    match token {
        Lexeme::Flagged(_) => Some(Form::RegexFlags),
        Lexeme::Word(_, word, _) if is_hidden(*word) && is_in_head(spot) => Some(Form::HiddenList),
        Lexeme::Word(_, _, _) if is_first_name(spot) && ends_in_infix(before) => {
            Some(Form::InfixRule)
        }
        Lexeme::Sign(symbol, _) => form_of_symbol(spot, before, *symbol),
        _ => None,
    }
}

fn form_of_symbol(spot: Spot, before: &[Lexeme], symbol: Symbol) -> Option<Form>
    ensures { result ≡ form_of_symbol spot before.now symbol }
{
    match symbol {
        Symbol::Ampersand => Some(Form::UnorderedGroup),
        Symbol::Less => Some(Form::GuardOrParameter),
        Symbol::FatArrow => Some(Form::Predicate),
        Symbol::ThinArrow if is_in_rule(spot) => Some(Form::Predicate),
        Symbol::ThinArrow if is_in_terminal(spot) => Some(Form::Until),
        Symbol::Exclamation if is_in_terminal(spot) => Some(Form::Negation),
        Symbol::Dot if is_in_terminal(spot) => Some(Form::Wildcard),
        Symbol::Question | Symbol::QuestionEquals
            if is_in_terminal(spot) && ends_in(before, Symbol::OpenParenthesis) => {
            Some(Form::Lookaround)
        }
        Symbol::Star if is_name(spot) => Some(Form::WildcardFragment),
        Symbol::Equals if is_behind_type(spot) => Some(Form::PropertyDefault),
        Symbol::Plus if ends_in(before, Symbol::OpenBracket) => Some(Form::MultiReference),
        _ => None,
    }
}

fn is_hidden(word: Option<Reserved>) -> bool
    ensures { result ≡ is_hidden word }
{
    matches!(word, Some(Reserved::Hidden))
}

fn is_name(spot: Spot) -> bool
    ensures { result ≡ is_name spot }
{
    matches!(spot, Spot::FirstName | Spot::RuleName)
}

fn is_in_head(spot: Spot) -> bool
    ensures { result ≡ is_in_head spot }
{
    matches!(spot, Spot::FirstName | Spot::RuleName | Spot::RuleType)
}

fn is_in_rule(spot: Spot) -> bool
    ensures { result ≡ is_in_rule spot }
{
    matches!(
        spot,
        Spot::FirstName | Spot::RuleName | Spot::RuleType | Spot::Rule
    )
}

fn is_first_name(spot: Spot) -> bool
    ensures { result ≡ is_first_name spot }
{
    matches!(spot, Spot::FirstName)
}

fn is_in_terminal(spot: Spot) -> bool
    ensures { result ≡ is_in_terminal spot }
{
    matches!(spot, Spot::Terminal)
}

fn is_behind_type(spot: Spot) -> bool
    ensures { result ≡ is_behind_type spot }
{
    matches!(spot, Spot::Attribute)
}

// Whether the last of the tokens is this symbol.
#[tactic(auto, unfolding(crate::specs::Steps::same_symbol))]
fn ends_in(tokens: &[Lexeme], symbol: Symbol) -> bool
    ensures { result ≡ sees symbol (last_token tokens.now) }
{
    match &tokens[tokens.len().saturating_sub(1)..] {
        [Lexeme::Sign(found, _), ..] => *found == symbol,
        _ => false,
    }
}

// Whether the last of the tokens is the word `infix`, as it stands or behind `^`.
fn ends_in_infix(tokens: &[Lexeme]) -> bool
    ensures { result ≡ begins_infix (last_token tokens.now) }
{
    match &tokens[tokens.len().saturating_sub(1)..] {
        [Lexeme::Word(name, _, _), ..] => name.text() == "infix",
        _ => false,
    }
}
