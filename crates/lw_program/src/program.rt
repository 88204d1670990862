// The program of a grammar.
ghost use Rattle.std.specs.Prelude.{◌≡◌, ◌≤◌, ◌<◌, false, true, Some, IsTrue, IfOk, length, slice_get};
ghost use Rattle.lw_grammar.specs.Kinds.{Kinds, AreKinds};
ghost use Rattle.lw_grammar.specs.Size.{size};
ghost use Rattle.lw_look.specs.Supplied.{IsSupplied};
ghost use Rattle.lw_kinds.specs.Reading.{IsReadingOf};
ghost use Rattle.lw_numbers.specs.Kinship.{AreNodeRules};
ghost use Rattle.lw_kinds.specs.LexiconKnown.{IsKnownLexicon};
ghost use Rattle.lw_program.specs.ProgramOf.{IsProgramOf};

use crate::Instr;
use crate::counts::Counts;
use crate::draft::Draft;
use lw_base::NoMemory;
use lw_grammar::Rule;
use lw_kinds::derivations::Reading;
use lw_kinds::lexicon::Lexicon;
use std::alloc::Global;
use std::marker::Model;

/// The rules of a grammar as instructions, and by their numbers where they start.
pub struct Program {
    code: Vec<Instr>,
    starts: Vec<Option<u32>>,
}

impl Drop for Program {
    // In one place, so that whoever drops such a value sees one call and not the drops of all its parts.
    fn drop(self) {
        let Program { code: _, starts: _ } = self;
    }
}

impl Model for Program {
    ghost use Rattle.lw_program.specs.ProgramOf.{ProgramParts};

    ghost Value = { ProgramParts };

    ghost view = { λ a. record { code = a.code.items; starts = a.starts.items } };
}

impl Program {
    /// That of a grammar in which no name and no kind is missing. A flag for each rule says whether it makes nodes.
    pub fn of(
        alloc: Global,
        lexicon: Lexicon<'_>,
        reading: &Reading,
        nodes: &[bool],
    ) -> Result<Program, NoMemory>
        requires known { IsKnownLexicon lexicon }
        requires read { IsReadingOf lexicon.g.now reading.now }
        requires told { AreNodeRules lexicon.g.now nodes.now }
        requires supplied { (kinds : Kinds) → AreKinds lexicon.g.now kinds → IsSupplied lexicon.g.now kinds }
        requires small { size lexicon.g.now ≤ 65535 }
        ensures { (kinds : Kinds) → AreKinds lexicon.entry.g.now kinds → IfOk result (IsProgramOf lexicon.entry.g.now kinds) }
    {
        let mut draft = Draft {
            code: Vec::new(alloc),
            counts: Counts {
                points: 0,
                puts: 0,
                acts: 0,
            },
        };
        let mut starts = Vec::new(alloc);
        for (number, rule) in lexicon.g.rules.as_slice().iter().enumerate() {
            let shuts = shuts(nodes, number, rule);
            let start = draft.rule(lexicon, rule, reading.is_reached(number), shuts)?;
            starts.push(start)?;
        }
        Ok(Program {
            code: draft.code,
            starts,
        })
    }

    /// The instructions: a place is a number in this list.
    pub fn code(&self) -> &[Instr]
        ensures { result.now ≡ self.now.code }
    {
        self.code.as_slice()
    }

    /// By the number of a rule the place of its body, or nothing where it cannot be reached. Behind the body stands a `Shut`
    /// where the rule makes nodes and is no fragment.
    pub fn starts(&self) -> &[Option<u32>]
        ensures { result.now ≡ self.now.starts }
    {
        self.starts.as_slice()
    }
}

/// Whether what a call of the rule reads is a node of its own.
fn shuts(nodes: &[bool], number: usize, rule: &Rule) -> bool
    requires { number < length nodes.now }
    ensures { rule.now.is_fragment ≡ false → slice_get nodes.now number ≡ Some true → IsTrue result }
{
    nodes[number] && !rule.is_fragment
}
