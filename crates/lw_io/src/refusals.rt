// The making of a pattern, and the texts that were refused.
ghost use Rattle.std.specs.Prelude.{◌≡◌, ◌↔◌, Some, Err, IfOk, option_map};
ghost use Rattle.regex.specs.Patterns.{default_config};
ghost use Rattle.regex.specs.Strings.{regex_source, regex_config, IsReadFromSource};
ghost use Rattle.lw_io.specs.Causes.{Faulted};
ghost use Rattle.lw_io.specs.Patterns.{anchored, RegexRefuses};

use crate::MakeFault;
use lw_base::Name;
use regex::{Error, Regex};
use std::alloc::Global;

/// How many texts were refused, and the last of them.
#[derive(Drop)]
pub(crate) struct Refusals {
    count: u64,
    last: Option<Name>,
}

impl Refusals {
    /// Nothing was refused yet.
    pub(crate) fn new() -> Refusals
        ensures count { result.count ≡ 0 }
        ensures last { result.last ≡ None }
    {
        Refusals {
            count: 0,
            last: None,
        }
    }

    /// Counts the refusal of a text, and keeps the text.
    pub(crate) fn add(&mut self, text: Name)
        ensures count { Faulted self.old.count self.new.count }
        ensures last { self.new.last ≡ Some text }
    {
        self.count = self.count.saturating_add(1);
        self.last = Some(text);
    }

    /// How many texts were refused.
    pub(crate) fn count(&self) -> u64
        ensures { result ≡ self.now.count }
    {
        self.count
    }

    /// The last of them.
    pub(crate) fn last(&self) -> Option<&Name>
        ensures { option_map (λ text. text.now) result ≡ self.now.last }
    {
        self.last.as_ref()
    }
}

/// What an error of `regex` is to its caller.
fn make_fault(error: Error) -> MakeFault
    ensures { (result ≡ MakeFault.NoMemory) ↔ (error ≡ Error.OutOfMemory) }
{
    match error {
        Error::OutOfMemory => MakeFault::NoMemory,
        Error::Syntax(_) | Error::CompiledTooBig | Error::Internal => MakeFault::Refused,
    }
}

/// The pattern `\A(?:text)`, where `regex` makes it.
pub(crate) fn compile(alloc: Global, text: &Name) -> Result<Regex, MakeFault>
    ensures source { IfOk result (λ pattern. regex_source pattern ≡ anchored text.now) }
    ensures config { IfOk result (λ pattern. regex_config pattern ≡ default_config) }
    ensures read { IfOk result IsReadFromSource }
    ensures refused { result ≡ Err MakeFault.Refused → RegexRefuses (anchored text.now) }
{
    let Ok(source) = format!(in alloc; "\\A(?:{text})") else {
        return Err(MakeFault::NoMemory);
    };
    match Regex::new(alloc, source.as_str()) {
        Ok(pattern) => Ok(pattern),
        Err(error) => Err(make_fault(error)),
    }
}
