// The files that the words name behind a grammar: their texts are put before a session begins.
ghost use Rattle.std.specs.Prelude.{◌≡◌, ◌++◌, ◌∷◌, ◌<◌, ◌≤◌, [], IfErr, IfSome, OnOk, List, length, map, ℕ};
ghost use Rattle.lw_base.specs.declared.limits.TheConstants.{LONGEST_TEXT};
ghost use Rattle.lw_conversation.specs.Opening.{most_documents};
ghost use Rattle.lw_conversation.specs.Standing.{beginning};
ghost use Rattle.lw_commands.specs.Named.{AreFileTexts, IsFileText};
ghost use Rattle.lw_commands.specs.Reading.{IsUnreadBy, StopsAtFile};
ghost use Rattle.lw_commands.specs.Stops.{Counts, TheStore};
ghost use Rattle.lw_io.specs.Paths.{address_of};

use crate::stop::Stop;
use lw_base::{Name, NoMemory};
use lw_build::WorkFault;
use lw_io::paths::address_of;
use lw_io::{Found, Store};
use lw_session::Session;
use std::alloc::Global;

/// Why a file that the words name is not read, with its path.
#[derive(Drop)]
pub(crate) enum FileFault {
    /// There is no such file.
    Absent(Name),
    /// Its bytes are not UTF-8.
    NotUtf8(Name),
    /// It has more than 67,108,864 bytes.
    TooLong(Name),
    /// The store failed.
    Failed(Name),
}

/// Puts the texts of the files at these paths, in their order, into a session to which nothing has come. They are no more than a session holds documents,
/// so nothing but memory is refused behind the store.
pub(crate) fn load_named<F: Store>(
    alloc: Global,
    session: &mut Session,
    paths: &[&Name],
    store: &mut F,
) -> Result<(), Stop>
    requires begins { session.old.standing ≡ beginning [] }
    requires few { length paths.now ≤ most_documents }
    ensures loaded { OnOk result ((named : List (List ℕ × List ℕ)) × (session.new.standing ≡ beginning named) × IfSome (F.files store.old) (λ files.
        AreFileTexts files (map (λ path. path.now) paths.now) named)) }
    ensures unread { IfErr result (StopsAtFile (F.files store.old) (map (λ path. path.now) paths.now)) }
    ensures setting { session.new.setting ≡ session.old.setting }
    ensures files { F.files store.new ≡ F.files store.old }
    ensures store { Counts TheStore (F.count store.old) (F.count store.new) result }
{
    'paths: for path in paths {
        load_file(alloc, session, path, store)?;
    }
    Ok(())
}

// Puts the text of one file behind those that were put before.
fn load_file<F: Store>(
    alloc: Global,
    session: &mut Session,
    path: &Name,
    store: &mut F,
) -> Result<(), Stop>
    requires { (named : List (List ℕ × List ℕ)) × (session.old.standing ≡ beginning named) × (length named < most_documents) }
    ensures loaded { OnOk result ((named : List (List ℕ × List ℕ)) → session.old.standing ≡ beginning named → (put : List ℕ × List ℕ) ×
        (session.new.standing ≡ beginning (named ++ put ∷ [])) × IfSome (F.files store.old) (λ files. IsFileText files path.now put)) }
    ensures unread { IfErr result (IsUnreadBy (F.files store.old) path.now) }
    ensures setting { session.new.setting ≡ session.old.setting }
    ensures files { F.files store.new ≡ F.files store.old }
    ensures store { Counts TheStore (F.count store.old) (F.count store.new) result }
{
    match store.read(alloc, path) {
        Found::Text(text) => put(alloc, session, path, text),
        Found::Absent => Err(Stop::File(FileFault::Absent(path.copy(alloc)?))),
        Found::NotUtf8 => Err(Stop::File(FileFault::NotUtf8(path.copy(alloc)?))),
        Found::TooLong => Err(Stop::File(FileFault::TooLong(path.copy(alloc)?))),
        Found::Failed => Err(Stop::File(FileFault::Failed(path.copy(alloc)?))),
        Found::NoMemory => Err(Stop::Memory),
    }
}

// Puts a text at the address of the file at a path. Nothing is refused but memory: no text of a store is too long, and there is room for one more document.
fn put(alloc: Global, session: &mut Session, path: &Name, text: Name) -> Result<(), Stop>
    requires begins { (named : List (List ℕ × List ℕ)) × (session.old.standing ≡ beginning named) × (length named < most_documents) }
    requires short { length text ≤ LONGEST_TEXT }
    ensures loaded { OnOk result ((named : List (List ℕ × List ℕ)) → session.old.standing ≡ beginning named →
        session.new.standing ≡ beginning (named ++ (address_of path.now, text) ∷ [])) }
    ensures fault { IfErr result (λ stop. stop ≡ Stop.Memory) }
    ensures setting { session.new.setting ≡ session.old.setting }
{
    let address = address_of(alloc, path)?;
    match session.load_file(&address, text) {
        Ok(()) => Ok(()),
        Err(fault) => Err(memory_stop(fault)),
    }
}

// The one fault that can be met there.
fn memory_stop(fault: WorkFault) -> Stop
    requires { fault ≡ WorkFault.NoMemory }
    ensures { result ≡ Stop.Memory }
{
    match fault {
        WorkFault::NoMemory => Stop::Memory,
        _ => unreachable!(),
    }
}
