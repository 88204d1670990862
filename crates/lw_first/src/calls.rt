// What a keyword and a call may begin with.
ghost use Rattle.std.specs.Prelude.{◌∷◌, ◌≤◌, [], OnOk, length};
ghost use Rattle.lw_grammar.specs.Kinds.{Kinds, AreKinds};
ghost use Rattle.lw_first.specs.Heads.{kinds_in};
ghost use Rattle.lw_first.specs.Sets.{AddsHeads};
ghost use Rattle.lw_first.specs.Before.{IsReady};
ghost use Rattle.lw_first.specs.Forms.{CallBefore, CrossBefore, FollowedBefore, HeadBefore, KeywordBefore, RuleBefore};

use crate::First;
use crate::heads::{Head, HeadSet};
use lw_base::{KindId, Name, NoMemory};
use lw_kinds::lexicon::Callee;

impl First<'_> {
    /// Puts in what may come where the keyword stands and one of these heads is behind it.
    pub(crate) fn keyword(
        &self,
        text: &Name,
        after: &[Head],
        into: &mut HeadSet,
    ) -> Result<(), NoMemory>
        requires { IsReady self.now }
        ensures { (kinds : Kinds) → AreKinds self.now.lexicon.g.now kinds → OnOk result (AddsHeads (KeywordBefore kinds self.now.k text.now after.now) into.old into.new) }
    {
        match self.lexicon.keyword(text) {
            Some(kind) => self.token(kind, after, into),
            None => Ok(()),
        }
    }

    /// The same of a call by name.
    pub(crate) fn call(
        &self,
        name: &Name,
        after: &[Head],
        into: &mut HeadSet,
    ) -> Result<(), NoMemory>
        requires { IsReady self.now }
        ensures { (kinds : Kinds) → AreKinds self.now.lexicon.g.now kinds →
            OnOk result (AddsHeads (CallBefore self.now.lexicon.g.now kinds self.now.k self.now.heads.now name.now after.now) into.old into.new) }
    {
        match self.lexicon.callee(name) {
            Callee::Token(kind) => self.token(kind, after, into),
            Callee::Rule(number) => self.rule(number, after, into),
            Callee::Nothing => Ok(()),
        }
    }

    /// The same of a cross-reference to this type, where this rule is written or none.
    pub(crate) fn cross(
        &self,
        wanted: &Name,
        written: &Option<Name>,
        after: &[Head],
        into: &mut HeadSet,
    ) -> Result<(), NoMemory>
        requires { IsReady self.now }
        ensures { (kinds : Kinds) → AreKinds self.now.lexicon.g.now kinds →
            OnOk result (AddsHeads (CrossBefore self.now.lexicon.g.now kinds self.now.k self.now.heads.now wanted.now written.now after.now) into.old into.new) }
    {
        match self.lexicon.read_by(wanted, written) {
            Some(name) => self.call(name, after, into),
            None => Ok(()),
        }
    }

    /// The same of a token of this kind.
    fn token(&self, kind: KindId, after: &[Head], into: &mut HeadSet) -> Result<(), NoMemory>
        requires { self.now.k ≤ 3 }
        ensures { OnOk result (AddsHeads (HeadBefore self.now.k (kind.0 ∷ []) after.now) into.old into.new) }
    {
        for head in after {
            into.insert(head.behind(kind, self.k))?;
        }
        Ok(())
    }

    /// The same of the rule of this number.
    fn rule(&self, number: usize, after: &[Head], into: &mut HeadSet) -> Result<(), NoMemory>
        requires { self.now.k ≤ 3 }
        ensures { OnOk result (AddsHeads (RuleBefore self.now.k self.now.heads.now number after.now) into.old into.new) }
    {
        match self.heads.get(number) {
            Some(heads) => self.all_followed(heads.as_slice(), after, into),
            None => Ok(()),
        }
    }

    /// Puts in each of these heads with each of those behind it.
    fn all_followed(
        &self,
        heads: &[Head],
        after: &[Head],
        into: &mut HeadSet,
    ) -> Result<(), NoMemory>
        requires { self.now.k ≤ 3 }
        ensures { OnOk result (AddsHeads (FollowedBefore self.now.k heads.now after.now) into.old into.new) }
    {
        for head in heads {
            self.followed(*head, after, into)?;
        }
        Ok(())
    }

    /// Puts in the head with each of these behind it.
    fn followed(&self, head: Head, after: &[Head], into: &mut HeadSet) -> Result<(), NoMemory>
        requires { self.now.k ≤ 3 }
        ensures { OnOk result (AddsHeads (HeadBefore self.now.k (kinds_in head) after.now) into.old into.new) }
    {
        if head.len() >= self.k {
            return self.full(head, after, into);
        }
        for behind in after {
            into.insert(head.followed_by(*behind, self.k))?;
        }
        Ok(())
    }

    /// The same of a head that has no room for what is behind it: one of those does, if there is one.
    fn full(&self, head: Head, after: &[Head], into: &mut HeadSet) -> Result<(), NoMemory>
        requires most { self.now.k ≤ 3 }
        requires full { self.now.k ≤ length (kinds_in head) }
        ensures { OnOk result (AddsHeads (HeadBefore self.now.k (kinds_in head) after.now) into.old into.new) }
    {
        match after.first() {
            Some(behind) => {
                into.insert(head.followed_by(*behind, self.k))?;
                Ok(())
            }
            None => Ok(()),
        }
    }
}
