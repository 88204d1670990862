// What a terminal kind is made from.
use lw_base::Name;

/// What a terminal kind is made from: its name, the text of its pattern, and whether the parser skips
/// its tokens.
#[derive(Debug, Drop)]
pub struct TerminalSource {
    pub name: Name,
    pub pattern: Name,
    pub hidden: bool,
}
