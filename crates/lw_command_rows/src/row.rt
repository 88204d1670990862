// A row, as its line gives it.
use crate::text::Text;
use serde::Deserialize;
use std::collections::BTreeMap;

/// A command, what it is run over, and how it ends. The root page says what each member is.
#[derive(Drop, Deserialize)]
#[serde(deny_unknown_fields)]
pub struct Row {
    pub page: Option<String>,
    pub about: Option<String>,
    pub words: Vec<String>,
    #[serde(default)]
    pub files: BTreeMap<String, Text>,
    pub input: Option<Text>,
    pub pieces: Option<Pieces>,
    #[serde(default)]
    pub fails: Failing,
    pub refused: Option<String>,
    pub status: u8,
    pub out: Option<Text>,
    pub note: Option<Text>,
    pub left: Option<Text>,
    pub serving: Option<bool>,
}

/// The sizes of the pieces that are read.
#[derive(Drop, Deserialize)]
#[serde(untagged)]
pub enum Pieces {
    /// Each piece has this size.
    Each(u32),
    /// The first pieces have these sizes, and what is left is one.
    First(Vec<u32>),
}

/// The numbers of the calls that fail, 0 for none.
#[derive(Clone, Copy, Default, Drop, Deserialize)]
#[serde(default, deny_unknown_fields)]
pub struct Failing {
    pub read: u64,
    pub write: u64,
    pub note: u64,
    pub file: u64,
}
