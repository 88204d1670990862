// Flags of rules.
ghost use Rattle.std.specs.Prelude.{◌↔◌, IsTrue};
ghost use Rattle.lw_graph.specs.Walks.{HasNode};

/// Whether the flag of this rule is set. There is none past the last rule.
pub(crate) fn is_set(flags: &[bool], rule: usize) -> bool
    ensures { IsTrue result ↔ HasNode flags.now rule }
{
    rule < flags.len() && flags[rule]
}
