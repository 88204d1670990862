// The files of the system.
ghost use Rattle.std.specs.Prelude.{◌≡◌, None};
ghost use Rattle.lw_io.specs.Causes.{Faulted};

use crate::content::content;
use crate::{Found, ReadFault, StdSource, Store, read_all};
use lw_base::{LONGEST_TEXT, Name};
use std::alloc::Global;
use std::fs::File;
use std::io::ErrorKind;
use std::rt::Files;

/// The files of the system. A path that is not there is absent; what can't be opened or read, as a folder,
/// is a fault.
#[derive(Drop)]
pub struct FileStore<R: Files + Drop> {
    rt: R,
    faults: u64,
}

impl<R: Files + Drop> FileStore<R> {
    /// The files of this runtime.
    pub fn new(rt: R) -> FileStore<R>
        ensures { ⟦<FileStore<R> as Store>⟧.count result ≡ 0 }
    {
        FileStore { rt, faults: 0 }
    }

    fn fail(&mut self) -> Found
        ensures answer { result ≡ Found.Failed }
        ensures cause { Faulted self.old.faults self.new.faults }
    {
        self.faults = self.faults.saturating_add(1);
        Found::Failed
    }
}

#[tactic(auto, using(crate::proofs::Faults::faults))]
impl<R: Files + Drop> Store for FileStore<R> {
    ghost files = { λ _. None };

    ghost count = { λ s. s.faults };

    fn faults(&self) -> u64 {
        self.faults
    }

    fn read(&mut self, alloc: Global, path: &Name) -> Found {
        let file = match File::open(&self.rt, path.text()) {
            Ok(file) => file,
            Err(error) if error.kind() == ErrorKind::NotFound => return Found::Absent,
            Err(_) => return self.fail(),
        };
        match read_all(alloc, &mut StdSource::new(file), LONGEST_TEXT + 1) {
            Ok(bytes) => content(bytes),
            Err(ReadFault::Failed) => self.fail(),
            Err(ReadFault::NoMemory) => Found::NoMemory,
        }
    }
}
