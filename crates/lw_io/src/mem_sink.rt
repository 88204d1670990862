// A sink in memory.
use crate::calls::Calls;
use crate::{Sink, Wrote};
use std::alloc::Global;

/// A sink in memory, which fails at chosen calls.
#[derive(Drop)]
pub struct MemSink {
    bytes: Vec<u8>,
    calls: Calls,
}

impl MemSink {
    ghost use Rattle.std.specs.Prelude.{◌≡◌, []};
    ghost use Rattle.lw_io.specs.MemSink.{sink_taken, sink_failing, sink_calls, sink_faults};

    /// A sink that has taken nothing, and takes the bytes of a call whole. The calls of the numbers in
    /// `failing`, counted from 1, fail.
    pub fn new(alloc: Global, failing: Vec<u64>) -> MemSink
        ensures taken { sink_taken result ≡ [] }
        ensures failing { sink_failing result ≡ failing.items }
        ensures calls { sink_calls result ≡ 0 }
        ensures faults { sink_faults result ≡ 0 }
    {
        MemSink {
            bytes: Vec::new(alloc),
            calls: Calls::new(failing),
        }
    }

    /// The bytes written.
    pub fn taken(&self) -> &[u8]
        ensures { result.now ≡ sink_taken self.now }
    {
        &self.bytes
    }
}

impl Sink for MemSink {
    ghost use Rattle.std.specs.Prelude.{◌≡◌, ◌<◌, ◌↔◌, ℕ, Some, length, Contains};
    ghost use Rattle.lw_io.specs.Causes.{next_number};
    ghost use Rattle.lw_io.specs.MemSink.{sink_taken, sink_failing, sink_calls, sink_faults};
    ghost use Rattle.lw_io.specs.Sink.{Takes, CountsWrite, TakesWhole};

    ghost written = { λ s. Some (sink_taken s) };

    ghost count = { sink_faults };

    fn faults(&self) -> u64 {
        self.calls.faults()
    }

    fn write(&mut self, bytes: &[u8]) -> Wrote
        requires { 0 < length bytes.now }
        ensures bytes { Takes (Some (sink_taken self.old)) (Some (sink_taken self.new)) bytes.now result }
        ensures cause { CountsWrite (sink_faults self.old) (sink_faults self.new) result }
        ensures whole { TakesWhole bytes.now result }
        ensures number { sink_calls self.new ≡ next_number (sink_calls self.old) }
        ensures fails { (result ≡ Wrote.Failed) ↔ Contains (sink_failing self.new) (sink_calls self.new) }
        ensures failing { sink_failing self.new ≡ sink_failing self.old }
    {
        if self.calls.next_fails() {
            return Wrote::Failed;
        }
        match self.bytes.extend_from_slice(bytes) {
            Ok(()) => Wrote::Took(bytes.len()),
            Err(_) => Wrote::NoMemory,
        }
    }
}
