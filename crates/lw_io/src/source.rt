// Where bytes come from.
ghost use Rattle.std.specs.Prelude.{◌≡◌, ◌<◌, List, ℕ, Option, length};
ghost use Rattle.lw_io.specs.Source.{GivesBytes, CountsRead};

/// What a read answers.
#[derive(Clone, Copy, Debug, PartialEq, Eq)]
pub enum Read {
    /// So many bytes were put at the front of the buffer. There is at least one.
    Got(usize),
    /// No byte is left.
    End,
    /// The source could not be read. The fault is counted, and no byte is lost.
    Failed,
}

/// What gives bytes.
pub trait Source {
    /// The bytes left, where the source tells them.
    ghost left: { Self → Option (List ℕ) };

    /// How many reads have failed.
    ghost count: { Self → ℕ };

    /// How many reads have failed: a read that fails raises the count by one, and it stands still at
    /// 2^64 - 1. It never falls.
    fn faults(&self) -> u64
        ensures { result ≡ count self.now };

    /// Puts the next bytes at the front of the buffer, which is not empty.
    fn read(&mut self, buf: &mut [u8]) -> Read
        requires { 0 < length buf.old }
        ensures bytes { GivesBytes (left self.old) (left self.new) buf.new result }
        ensures cause { CountsRead (count self.old) (count self.new) result };
}
