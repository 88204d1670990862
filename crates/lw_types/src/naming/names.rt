// What is known of the names of a grammar, and what is wrong with them where they are written.
ghost use Rattle.std.specs.Prelude.{ℕ, ◌≡◌, ◌↔◌, List, [], IsTrue, OnOk, IfOk, bytes_eq};
ghost use Rattle.indexmap.specs.IndexSet.{insert_key};
ghost use Rattle.lw_numbers.specs.Tables.{AreNumbersOf};
ghost use Rattle.lw_numbers.specs.NameTable.{AreNameRulesOf};
ghost use Rattle.lw_grammar.specs.Written.{IsNoRule, IsKnownType};
ghost use Rattle.lw_faults.specs.Finding.{Finds, OfSome};
ghost use Rattle.lw_faults.specs.Kinds.{number_of};
ghost use Rattle.lw_faults.specs.Names.{IsNameless};
ghost use Rattle.lw_types.specs.NameUses.{use_of, uses};
ghost use Rattle.lw_types.specs.Wrong.{KnowsNames, IsWrong, fault_number, TellsWrong, InfersName};

use crate::naming::mentions::{Mention, Role, mentions};
use indexmap::IndexSet;
use lw_base::{Name, NoMemory};
use lw_faults::FaultKind;
use lw_faults::findings::Findings;
use lw_grammar::Grammar;
use lw_numbers::Numbers;
use lw_numbers::name_rules::NameRules;
use std::alloc::Global;

/// A grammar with what is known of its names.
#[derive(Drop)]
pub(crate) struct KnownNames<'g> {
    pub(crate) g: &'g Grammar,
    pub(crate) numbers: &'g Numbers,
    name_rules: &'g NameRules,
    mentions: Vec<Mention<'g>>,
    /// The names of the types that are inferred.
    inferred: IndexSet<Name>,
}

impl<'g> KnownNames<'g> {
    /// What is known of these, in expected linear time.
    pub(crate) fn of(
        alloc: Global,
        g: &'g Grammar,
        numbers: &'g Numbers,
        name_rules: &'g NameRules,
    ) -> Result<KnownNames<'g>, NoMemory>
        requires numbered { AreNumbersOf g.now numbers.now }
        requires ruled { AreNameRulesOf g.now name_rules.now }
        ensures grammar { IfOk result (λ names. names.g.now ≡ g.now) }
        ensures knows { IfOk result KnowsNames }
    {
        let mentions = mentions(alloc, g)?;
        let inferred = inferred_names(alloc, mentions.as_slice())?;
        Ok(KnownNames {
            g,
            numbers,
            name_rules,
            mentions,
            inferred,
        })
    }

    /// Whether a type of this name is declared, or inferred somewhere.
    pub(crate) fn is_known(&self, name: &Name) -> bool
        requires { KnowsNames self.now }
        ensures { IsTrue result ↔ IsKnownType self.now.g.now name.now }
    {
        self.numbers.is_declared(name) || self.inferred.contains(name)
    }

    fn is_no_rule(&self, name: &Name) -> bool
        requires { KnowsNames self.now }
        ensures { IsTrue result ↔ IsNoRule self.now.g.now name.now }
    {
        !self.numbers.is_called(name)
    }

    /// Whether nothing that is there reads a cross-reference to the type that names no rule.
    fn is_nameless(&self, wanted: &Name) -> bool
        requires { KnowsNames self.now }
        ensures { IsTrue result ↔ IsNameless self.now.g.now wanted.now }
    {
        match self.name_rules.rule_of(wanted) {
            Some(called) => self.is_no_rule(called),
            None => true,
        }
    }

    /// Whether what the name does here is a fault.
    fn is_wrong(&self, mention: &Mention<'_>) -> bool
        requires { KnowsNames self.now }
        ensures { IsTrue result ↔ IsWrong self.now.g.now (use_of mention.now) }
    {
        match mention.role {
            Role::InfersType => self.numbers.is_declared(mention.name),
            Role::CallsRule => self.is_no_rule(mention.name),
            Role::NamesType => !self.is_known(mention.name),
            Role::WantsNameRule => self.is_nameless(mention.name),
        }
    }

    /// Finds each name that is wrong where it is written: types that are inferred and declared, rules and
    /// types that are not there, and cross-references that nothing reads.
    pub(crate) fn find_wrong(&self, alloc: Global, found: &mut Findings) -> Result<(), NoMemory>
        requires { KnowsNames self.now }
        ensures { OnOk result (Finds (OfSome (TellsWrong self.now.g.now) (uses self.now.g.now)) found.old found.new) }
    {
        self.find_among(alloc, self.mentions.as_slice(), found)
    }

    fn find_among(
        &self,
        alloc: Global,
        mentions: &[Mention<'_>],
        found: &mut Findings,
    ) -> Result<(), NoMemory>
        requires { KnowsNames self.now }
        ensures { OnOk result (Finds (OfSome (λ m. TellsWrong self.now.g.now (use_of m)) mentions.now) found.old found.new) }
    {
        for mention in mentions {
            self.find_at(alloc, mention, found)?;
        }
        Ok(())
    }

    fn find_at(
        &self,
        alloc: Global,
        mention: &Mention<'_>,
        found: &mut Findings,
    ) -> Result<(), NoMemory>
        requires { KnowsNames self.now }
        ensures { OnOk result (Finds (TellsWrong self.now.g.now (use_of mention.now)) found.old found.new) }
    {
        if !self.is_wrong(mention) {
            return Ok(());
        }
        let kind = fault_kind(mention.role);
        found.add(alloc, kind, mention.file, mention.span, mention.name)
    }
}

/// The fault of a name that is wrong in what it does.
fn fault_kind(role: Role) -> FaultKind
    ensures { number_of result ≡ fault_number role }
{
    match role {
        Role::InfersType => FaultKind::Duplicate,
        Role::CallsRule => FaultKind::UnknownRule,
        Role::NamesType => FaultKind::UnknownType,
        Role::WantsNameRule => FaultKind::NoNameRule,
    }
}

/// The names of the types that are inferred.
fn inferred_names(alloc: Global, mentions: &[Mention<'_>]) -> Result<IndexSet<Name>, NoMemory>
    ensures { IfOk result (λ names. Finds (OfSome (λ m. InfersName (use_of m)) mentions.now) [] names.keys) }
{
    let mut names = IndexSet::new(alloc);
    for mention in mentions {
        put_inferred(alloc, mention, &mut names)?;
    }
    Ok(names)
}

fn put_inferred(
    alloc: Global,
    mention: &Mention<'_>,
    names: &mut IndexSet<Name>,
) -> Result<(), NoMemory>
    ensures { OnOk result (Finds (InfersName (use_of mention.now)) names.old.keys names.new.keys) }
{
    match mention.role {
        Role::InfersType => put_name(alloc, mention.name, names),
        _ => Ok(()),
    }
}

/// Puts the name in, unless it is there.
pub(crate) fn put_name(
    alloc: Global,
    name: &Name,
    names: &mut IndexSet<Name>,
) -> Result<(), NoMemory>
    ensures { OnOk result (names.new.keys ≡ insert_key bytes_eq names.old.keys name.now) }
{
    if !names.contains(name) {
        names.insert(name.copy(alloc)?)?;
    }
    Ok(())
}
