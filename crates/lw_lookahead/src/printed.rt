// How windows are printed.
ghost use Rattle.std.specs.Prelude.{◌≡◌, ◌++◌, [], IfOk, OnOk, codes, slice_index_or, string_bytes};
ghost use Rattle.std.specs.Option.{option_map};
ghost use Rattle.lw_grammar.specs.Kinds.{Kinds, AreKinds};
ghost use Rattle.lw_grammar.specs.KindTexts.{quoted, texts_of};
ghost use Rattle.lw_first.specs.Heads.{seen_in};
ghost use Rattle.lw_kinds.specs.LexiconKnown.{IsKnownLexicon};
ghost use Rattle.lw_lookahead.specs.Printed.{window_text, shown, spaced};

use lw_base::{KindId, Name, NoMemory};
use lw_kinds::lexicon::Lexicon;
use std::alloc::Global;

/// The texts of the kinds in a window, joined by one space. An end mark is `<end>`.
pub(crate) fn print(
    alloc: Global,
    lexicon: &Lexicon<'_>,
    window: &[Option<KindId>],
) -> Result<Name, NoMemory>
    requires { IsKnownLexicon lexicon.now }
    ensures { (kinds : Kinds) → AreKinds lexicon.now.g.now kinds →
        IfOk result (λ text. text ≡ window_text (texts_of kinds) (seen_in window.now)) }
{
    let mut text = String::new(alloc);
    let Some((first, others)) = window.split_first() else {
        return Ok(Name::from_string(text));
    };
    push_seen(&mut text, lexicon, *first)?;
    push_others(&mut text, lexicon, others)?;
    Ok(Name::from_string(text))
}

/// Puts what is seen at further places behind the text, each behind a space.
fn push_others(
    text: &mut String,
    lexicon: &Lexicon<'_>,
    others: &[Option<KindId>],
) -> Result<(), NoMemory>
    requires { IsKnownLexicon lexicon.now }
    ensures { (kinds : Kinds) → AreKinds lexicon.now.g.now kinds →
        OnOk result (string_bytes text.new ≡ string_bytes text.old ++ spaced (texts_of kinds) (seen_in others.now)) }
{
    for seen in others {
        text.push_str(" ")?;
        push_seen(text, lexicon, *seen)?;
    }
    Ok(())
}

/// Puts what is seen at one place behind the text.
fn push_seen(text: &mut String, lexicon: &Lexicon<'_>, seen: Option<KindId>) -> Result<(), NoMemory>
    requires { IsKnownLexicon lexicon.now }
    ensures { (kinds : Kinds) → AreKinds lexicon.now.g.now kinds →
        OnOk result (string_bytes text.new ≡ string_bytes text.old ++ shown (texts_of kinds) (option_map (λ kind. kind.0) seen)) }
{
    match seen {
        Some(kind) => push_kind(text, lexicon, kind),
        None => Ok(text.push_str("<end>")?),
    }
}

/// Puts the text of a kind behind the text.
fn push_kind(text: &mut String, lexicon: &Lexicon<'_>, kind: KindId) -> Result<(), NoMemory>
    requires { IsKnownLexicon lexicon.now }
    ensures { (kinds : Kinds) → AreKinds lexicon.now.g.now kinds →
        OnOk result (string_bytes text.new ≡ string_bytes text.old ++ slice_index_or (texts_of kinds) kind.0 []) }
{
    let number = usize::from(kind.0);
    let keywords = lexicon.kinds.keyword_count();
    if number < keywords {
        return push_quoted(text, lexicon.kinds.keyword_at(number));
    }
    let place = number - keywords;
    if place < lexicon.kinds.terminal_count() {
        let terminal = &lexicon.g.terminals.as_slice()[lexicon.kinds.terminal_at(place)];
        text.push_str(terminal.name.text())?;
    }
    Ok(())
}

/// Puts the name in single quotes behind the text.
fn push_quoted(text: &mut String, name: &Name) -> Result<(), NoMemory>
    ensures { OnOk result (string_bytes text.new ≡ string_bytes text.old ++ quoted name.now) }
{
    text.push_str("'")?;
    text.push_str(name.text())?;
    text.push_str("'")?;
    Ok(())
}
