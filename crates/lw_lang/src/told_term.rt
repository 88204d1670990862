// Why a grammar has no set of tokens, by where a reader finds it.
ghost use Rattle.std.specs.Prelude.{◌≡◌, ◌≤◌, [], ◌∷◌, None, All, IfSome, length};
ghost use Rattle.lw_base.specs.declared.limits.TheConstants.{LONGEST_TEXT};
ghost use Rattle.lw_load.specs.Standing.{AreIn, Stands};
ghost use Rattle.lw_terminals.specs.declared.fault.TermFault.{TermFault};
ghost use Rattle.lw_lang.specs.ToldTerms.{CanBeTold, IsTerminalNumber, IsPlacedAs, IsTermToldAs, IsTerminalToldAs};

use lw_base::{Name, RuleId, Span};
use lw_grammar::{Grammar, Terminal};
use lw_terminals::TermFault;
use lw_text::{Pos, position};

/// A place in the files of a grammar, as a reader finds it: the path of the file, and the position there, line and UTF-16
/// unit from zero.
#[derive(Drop)]
pub struct FilePlace {
    pub path: Name,
    pub at: Pos,
}

/// A terminal by its number among the rules and terminals, of which the rules come first, by its name, and by where its name begins.
#[derive(Drop)]
pub struct ToldTerminal {
    pub rule: RuleId,
    pub name: Name,
    pub place: FilePlace,
}

/// What is wrong with the pattern of a terminal.
#[derive(Clone, Copy, Debug, PartialEq, Eq)]
pub enum PatternProblem {
    /// It is too long: it has this many bytes, where 4,294,967,295 stands for all that are longer.
    Long(u32),
    /// It was refused.
    Refused,
    /// It matches the empty text.
    MatchesEmpty,
}

/// Why a grammar has no set of tokens, by where a reader finds it.
#[derive(Drop)]
pub enum ToldTermFault {
    /// There are too many kinds of tokens, or else too many terminals, and this many.
    TooManyKinds(u32),
    /// A keyword that is empty or begins with white space is first used here.
    KeywordBlank(FilePlace),
    /// Something is wrong with the pattern of this terminal.
    Pattern(ToldTerminal, PatternProblem),
}

/// Tells why a grammar, the texts of whose files are these, has no set of tokens. Names are taken out of the grammar, so that this takes no memory.
/// Nothing where there was no memory before.
pub(crate) fn told_term(grammar: Grammar, texts: &[Name], fault: TermFault) -> Option<ToldTermFault>
    requires stand { Stands texts.now grammar }
    requires there { CanBeTold grammar texts.now fault }
    ensures told { IfSome result (IsTermToldAs grammar texts.now fault) }
    ensures memory { result ≡ None → fault ≡ TermFault.NoMemory }
{
    match fault {
        TermFault::TooManyKinds(count) => Some(ToldTermFault::TooManyKinds(count)),
        TermFault::KeywordBlank(file, span) => {
            Some(ToldTermFault::KeywordBlank(placed(grammar, texts, file, span)))
        }
        TermFault::PatternLong(rule, bytes) => {
            Some(ToldTermFault::Pattern(
                told_terminal(grammar, texts, rule),
                PatternProblem::Long(bytes),
            ))
        }
        TermFault::PatternRefused(rule) => {
            Some(ToldTermFault::Pattern(
                told_terminal(grammar, texts, rule),
                PatternProblem::Refused,
            ))
        },
        TermFault::EmptyMatch(rule) => {
            Some(ToldTermFault::Pattern(
                told_terminal(grammar, texts, rule),
                PatternProblem::MatchesEmpty,
            ))
        },
        TermFault::NoMemory => None,
    }
}

/// The terminal of this number among rules and terminals.
fn told_terminal(mut grammar: Grammar, texts: &[Name], rule: RuleId) -> ToldTerminal
    requires stand { Stands texts.now grammar }
    requires there { IsTerminalNumber grammar texts.now rule }
    ensures { IsTerminalToldAs grammar texts.now rule result }
{
    let number = usize::from(rule.0) - grammar.rules.len();
    let Terminal {
        name,
        file,
        span,
        ..
    } = grammar.terminals.remove(number);
    let place = placed(grammar, texts, file, span);
    ToldTerminal { rule, name, place }
}

/// Where this begins in the file of this number.
pub(crate) fn placed(mut grammar: Grammar, texts: &[Name], file: u16, span: Span) -> FilePlace
    requires files { length texts.now ≡ length grammar.files }
    requires short { All (λ text. length text ≤ LONGEST_TEXT) texts.now }
    requires there { AreIn texts.now file (span ∷ []) }
    ensures { IsPlacedAs grammar texts.now file span result }
{
    let at = position(texts[file as usize].text(), span.start as usize);
    let path = grammar.files.remove(file as usize);
    FilePlace { path, at }
}
