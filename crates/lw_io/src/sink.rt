// Where bytes go.
ghost use Rattle.std.specs.Prelude.{◌≡◌, ◌<◌, List, ℕ, Option, length};
ghost use Rattle.lw_io.specs.Sink.{Takes, CountsWrite};

/// What a write answers.
#[derive(Clone, Copy, Debug, PartialEq, Eq)]
pub enum Wrote {
    /// So many of the bytes were written, from the first on. There is at least one.
    Took(usize),
    /// Nothing was written. The fault is counted.
    Failed,
    /// Nothing was written, for want of memory.
    NoMemory,
}

/// What takes bytes.
pub trait Sink {
    /// The bytes written, where the sink tells them.
    ghost written: { Self → Option (List ℕ) };

    /// How many writes have failed.
    ghost count: { Self → ℕ };

    /// How many writes have failed: a write that fails raises the count by one, and it stands still at
    /// 2^64 - 1. It never falls.
    fn faults(&self) -> u64
        ensures { result ≡ count self.now };

    /// Writes the first of the bytes, of which there are some.
    fn write(&mut self, bytes: &[u8]) -> Wrote
        requires { 0 < length bytes.now }
        ensures bytes { Takes (written self.old) (written self.new) bytes.now result }
        ensures cause { CountsWrite (count self.old) (count self.new) result };
}
