// Files in memory.
ghost use Rattle.std.specs.Prelude.{◌≡◌, find, map, option_map, reverse};
ghost use Rattle.std.specs.Str.{bytes_eq};
ghost use Rattle.lw_io.specs.Store.{file_at};

use crate::calls::Calls;
use crate::content::content;
use crate::{Found, Store};
use lw_base::Name;
use std::alloc::Global;

/// Files in memory. Chosen reads of them fail.
#[derive(Drop)]
pub struct MemStore {
    files: Vec<(Name, Vec<u8>)>,
    calls: Calls,
}

impl MemStore {
    ghost use Rattle.std.specs.Prelude.{◌≡◌, map};
    ghost use Rattle.lw_io.specs.MemStore.{store_files, store_failing, store_calls, store_faults};

    /// The files of these pairs of a path and its bytes, where a later pair of one path replaces an earlier.
    /// The calls of the numbers in `failing`, counted from 1, fail.
    pub fn new(files: Vec<(Name, Vec<u8>)>, failing: Vec<u64>) -> MemStore
        ensures files { store_files result ≡ map (λ file. (file.0, file.1.items)) files.items }
        ensures failing { store_failing result ≡ failing.items }
        ensures calls { store_calls result ≡ 0 }
        ensures faults { store_faults result ≡ 0 }
    {
        MemStore {
            files,
            calls: Calls::new(failing),
        }
    }
}

#[tactic(auto, using(crate::proofs::Faults::faults))]
impl Store for MemStore {
    ghost use Rattle.std.specs.Prelude.{◌≡◌, ◌↔◌, Some, Contains};
    ghost use Rattle.lw_io.specs.Causes.{next_number};
    ghost use Rattle.lw_io.specs.MemStore.{store_files, store_failing, store_calls, store_faults};
    ghost use Rattle.lw_io.specs.Store.{AnswersFile, CountsFind, IsInLimit};

    ghost files = { λ s. Some (store_files s) };

    ghost count = { store_faults };

    fn faults(&self) -> u64 {
        self.calls.faults()
    }

    fn read(&mut self, alloc: Global, path: &Name) -> Found
        ensures found { AnswersFile (Some (store_files self.old)) path.now result }
        ensures limit { IsInLimit result }
        ensures files { Some (store_files self.new) ≡ Some (store_files self.old) }
        ensures cause { CountsFind (store_faults self.old) (store_faults self.new) result }
        ensures number { store_calls self.new ≡ next_number (store_calls self.old) }
        ensures fails { (result ≡ Found.Failed) ↔ Contains (store_failing self.new) (store_calls self.new) }
        ensures failing { store_failing self.new ≡ store_failing self.old }
    {
        if self.calls.next_fails() {
            return Found::Failed;
        }
        let Some(bytes) = bytes_at(&self.files, path) else {
            return Found::Absent;
        };
        match bytes.to_vec(alloc) {
            Ok(bytes) => content(bytes),
            Err(_) => Found::NoMemory,
        }
    }
}

// The bytes of the file of this path.
#[tactic(auto, using(crate::proofs::Last::pairs))]
fn bytes_at<'a>(files: &'a [(Name, Vec<u8>)], path: &Name) -> Option<&'a [u8]>
    ensures { option_map (λ bytes. bytes.now) result
        ≡ file_at (map (λ file. (file.0, file.1.items)) files.now) path.now }
{
    match last_of(files, path) {
        Some(file) => Some(file.1.as_slice()),
        None => None,
    }
}

// The last pair of this path.
fn last_of<'a>(files: &'a [(Name, Vec<u8>)], path: &Name) -> Option<&'a (Name, Vec<u8>)>
    ensures { option_map (λ file. file.now) result ≡ find (λ file. bytes_eq file.0 path.now) (reverse files.now) }
{
    files.iter().rev().find(|file| file.0 == *path)
}
