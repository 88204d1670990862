// Where the references of one document lead, and which documents it leads into.
ghost use Rattle.std.specs.Prelude.{◌≡◌, ◌^◌, ◌<◌, ◌++◌, ℕ, List, IsTrue, OnOk, IfOk, length};
ghost use Rattle.lw_index.specs.declared.refs.slot.SlotId.{SlotId};
ghost use Rattle.lw_index.specs.Pairs.{is_paired, LeadsInto, StaysPaired};
ghost use Rattle.lw_index.specs.Users.{AreUsersIn};

use crate::refs::slot::SlotId;
use crate::refs::users::Pairs;
use crate::refs::uses::{Use, leads_into, uses_at, uses_of};
use crate::{Answer, Target};
use lw_base::{DocId, NoMemory, RefId};
use std::alloc::Global;
use std::marker::Model;

/// Where the references of a document lead, seen as the answers, in the order of the references.
pub(crate) struct Leads {
    answers: Vec<Answer>,
    uses: Vec<Use>,
}

impl Model for Leads {
    ghost use Rattle.std.specs.Prelude.{List};
    ghost use Rattle.std.specs.Coded.{coded_list};
    ghost use Rattle.lw_index.specs.declared.parts.Answer.{Answer};
    ghost use Rattle.lw_index.specs.Led.{coded_answer};
    ghost use Rattle.lw_index.specs.Uses.{AreUses};

    ghost Value = { List Answer };

    ghost coded = { coded_list coded_answer };

    ghost view = { λ a. a.answers.items };

    ghost invariant = { λ a. AreUses a.answers.items a.uses.items };
}

impl Drop for Leads {
    // In one place, so that whoever drops such a value sees one call.
    fn drop(self) {
        let Leads {
            answers: _,
            uses: _,
        } = self;
    }
}

impl Leads {
    /// These answers, with what they lead to in order.
    pub(crate) fn new(alloc: Global, answers: Vec<Answer>) -> Result<Leads, NoMemory>
        requires { length answers.items < 2 ^ 32 }
        ensures { IfOk result (λ leads. leads ≡ answers.items) }
    {
        let uses = uses_of(alloc, answers.as_slice())?;
        Ok(Leads { answers, uses })
    }

    /// The answers.
    pub(crate) fn answers(&self) -> &[Answer]
        ensures { result.now ≡ self.now }
    {
        self.answers.as_slice()
    }

    /// Whether a reference leads into a document. Found by halving.
    fn leads_into(&self, doc: u32) -> bool
        ensures { LeadsInto self.now doc → IsTrue result }
    {
        leads_into(self.uses.as_slice(), doc)
    }

    /// Puts in a pair for each document that is led into. One look-up for each of these.
    pub(crate) fn enter(&self, user: DocId, pairs: &mut Pairs) -> Result<(), NoMemory>
        ensures kept { (p : ℕ × ℕ) → IsTrue (is_paired pairs.old p) → IsTrue (is_paired pairs.new p) }
        ensures entered { OnOk result ((doc : ℕ) → LeadsInto self.now doc → IsTrue (is_paired pairs.new (doc, user.0))) }
    {
        let mut last = None;
        for found in self.uses.as_slice() {
            if last != Some(found.doc) {
                pairs.insert((found.doc, user.0))?;
                last = Some(found.doc);
            }
        }
        Ok(())
    }

    /// Takes out the pair of each document that is led into, but where what is kept leads there too. One look-up for each of these.
    pub(crate) fn leave(&self, user: DocId, kept: Option<&Leads>, pairs: &mut Pairs)
        ensures { (p : ℕ × ℕ) → IsTrue (is_paired pairs.old p) → StaysPaired user.0 kept.entry p → IsTrue (is_paired pairs.new p) }
    {
        let mut last = None;
        for found in self.uses.as_slice() {
            if last != Some(found.doc) {
                leave_one((found.doc, user.0), kept, pairs);
                last = Some(found.doc);
            }
        }
    }

    /// Appends the references that lead to a node, in order. Found by halving, and a step for each.
    pub(crate) fn add_users(
        &self,
        user: DocId,
        target: Target,
        slots: &mut Vec<SlotId>,
    ) -> Result<(), NoMemory>
        ensures { OnOk result ((added : List SlotId) × (slots.new.items ≡ slots.old.items ++ added) × AreUsersIn self.now user target added) }
    {
        for found in uses_at(self.uses.as_slice(), target.doc.0, target.node.0) {
            slots.push(SlotId {
                doc: user,
                reference: RefId(found.reference),
            })?;
        }
        Ok(())
    }
}

/// Takes out a pair, but where what is kept of its second document leads into the first.
fn leave_one(pair: (u32, u32), kept: Option<&Leads>, pairs: &mut Pairs)
    ensures { (p : ℕ × ℕ) → IsTrue (is_paired pairs.old p) → StaysPaired pair.1 kept.entry p → IsTrue (is_paired pairs.new p) }
{
    let stays = match kept {
        Some(leads) => leads.leads_into(pair.0),
        None => false,
    };
    if stays {
        return;
    }
    pairs.remove(&pair);
}
