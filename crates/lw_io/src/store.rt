// Files by path.
ghost use Rattle.std.specs.Prelude.{◌≡◌, List, ℕ, Option};
ghost use Rattle.lw_io.specs.Store.{AnswersFile, CountsFind, IsInLimit};

use lw_base::Name;
use std::alloc::Global;

/// What a store answers for a path.
#[derive(Debug, PartialEq, Eq, Drop)]
pub enum Found {
    /// The text of the file.
    Text(Name),
    /// There is no such file.
    Absent,
    /// The bytes of the file are not UTF-8.
    NotUtf8,
    /// The file has more than 67,108,864 bytes.
    TooLong,
    /// The file could not be read. The fault is counted.
    Failed,
    /// There was no memory for the text.
    NoMemory,
}

/// What has texts by path.
pub trait Store {
    /// The files as pairs of a path and its bytes, where the store tells them. The last pair of a path is its file.
    ghost files: { Self → Option (List (List ℕ × List ℕ)) };

    /// How many reads have failed.
    ghost count: { Self → ℕ };

    /// How many reads have failed: a read that fails raises the count by one, and it stands still at
    /// 2^64 - 1. It never falls.
    fn faults(&self) -> u64
        ensures { result ≡ count self.now };

    /// Reads the file of this path. A read changes no file.
    fn read(&mut self, alloc: Global, path: &Name) -> Found
        ensures found { AnswersFile (files self.old) path.now result }
        ensures limit { IsInLimit result }
        ensures files { files self.new ≡ files self.old }
        ensures cause { CountsFind (count self.old) (count self.new) result };
}
