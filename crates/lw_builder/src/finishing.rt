// A node as it is finished: what stands in it is given its place.
ghost use Rattle.std.specs.Prelude.{◌≡◌, ◌<◌, ◌≤◌, ◌++◌, List, IfOk, length};
ghost use Rattle.lw_reading.specs.Brackets.{Bracket, grown};
ghost use Rattle.lw_reading.specs.Grown.{Held};
ghost use Rattle.lw_builder.specs.Finishing.{adopted, adopts, adopts_all, AreWithin, IsPlaceWithin};
ghost use Rattle.lw_builder.specs.Tables.{owned};
ghost use Rattle.lw_builder.specs.Owners.{claimed, claims, claims_all, AreClaimable, IsClaimable};
ghost use Rattle.lw_builder.specs.Steps.{IsFinished, IsReadyToFinish, IsSameReading, read_tokens};

use crate::Builder;
use crate::open::OpenNode;
use crate::preorder::Finished;
use crate::spans::{read_since, span_of_tokens};
use lw_base::{NoMemory, NodeId, PropId, RefId};
use lw_tree::{Node, Reference, Value};

/// The place behind so many nodes or references. Where there are 2^32 of them, memory is wanting.
pub(crate) fn place_behind(len: usize) -> Result<u32, NoMemory>
    ensures { IfOk result (λ place. place ≡ len) }
{
    u32::try_from(len).map_err(|_| NoMemory)
}

/// Puts a finished node into a property of another.
fn adopt(finished: &mut Vec<Finished>, place: NodeId, own: NodeId, prop: PropId)
    requires { place.0 < length finished.old.items }
    ensures { finished.new.items ≡ adopted own prop place.0 finished.old.items }
{
    let child = &mut finished[place.0 as usize];
    child.node.container = Some(own);
    child.node.prop = Some(prop);
}

/// Says in which node a reference stands.
fn claim(refs: &mut Vec<Reference>, number: RefId, own: NodeId)
    requires { number.0 < length refs.old.items }
    ensures { refs.new.items ≡ claimed own number.0 refs.old.items }
{
    let reference = &mut refs[number.0 as usize];
    reference.owner = own;
}

/// Gives the node or the reference that a value names its place in the node `own`.
fn settle(
    finished: &mut Vec<Finished>,
    refs: &mut Vec<Reference>,
    own: NodeId,
    prop: PropId,
    value: &Value,
)
    requires nodes { IsPlaceWithin (length finished.old.items) value.now }
    requires refs { IsClaimable (length refs.old.items) value.now }
    ensures finished { finished.new.items ≡ adopts own prop value.now finished.old.items }
    ensures refs { refs.new.items ≡ claims own value.now refs.old.items }
{
    match value {
        Value::Child(place) => adopt(finished, *place, own, prop),
        Value::Refers(number) => claim(refs, *number, own),
        _ => {}
    }
}

/// Puts these values into the node `own`, and the nodes and references among them.
fn give(
    finished: &mut Vec<Finished>,
    refs: &mut Vec<Reference>,
    kept: &mut Vec<(NodeId, PropId, Value)>,
    own: NodeId,
    inside: Vec<(PropId, Value)>,
) -> Result<(), NoMemory>
    requires nodes { AreWithin (length finished.old.items) inside.items }
    requires refs { AreClaimable (length refs.old.items) inside.items }
    ensures finished { IfOk result (λ _. finished.new.items ≡ adopts_all own inside.items finished.old.items) }
    ensures refs { IfOk result (λ _. refs.new.items ≡ claims_all own inside.items refs.old.items) }
    ensures kept { IfOk result (λ _. kept.new.items ≡ kept.old.items ++ owned own inside.items) }
{
    for (prop, value) in inside {
        settle(finished, refs, own, prop, &value);
        kept.push((own, prop, value))?;
    }
    Ok(())
}

impl Builder<'_> {
    /// Finishes a node that was taken off the brackets, and gives its place. It takes time in proportion to its values.
    pub(crate) fn finish(&mut self, node: OpenNode) -> Result<NodeId, NoMemory>
        requires ready { (bs : List Bracket) × (held : Held) × IsReadyToFinish self.old node bs held }
        requires within { self.old.read ≤ length self.old.visible.now }
        ensures finished { (bs : List Bracket) (held : Held) → IsReadyToFinish self.old node bs held →
            IfOk result (λ own. IsFinished self.new own.0 bs (grown (read_tokens self.old) node.type_id.0 node.first held)) }
        ensures brackets { IfOk result (λ _. self.new.brackets.items ≡ self.old.brackets.items) }
        ensures reading { IsSameReading self.old self.new }
    {
        let own = NodeId(place_behind(self.finished.len())?);
        let inside = self.loose.split_off(node.values)?;
        give(
            &mut self.finished,
            &mut self.refs,
            &mut self.kept,
            own,
            inside,
        )?;
        let span = span_of_tokens(read_since(self.visible, self.read, node.first));
        let whole = Node {
            type_id: node.type_id,
            container: None,
            prop: None,
            span,
        };
        self.finished.push(Finished {
            node: whole,
            start: node.start,
        })?;
        Ok(own)
    }
}
