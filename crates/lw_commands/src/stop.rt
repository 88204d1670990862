// Why a run stops before its work is done.
ghost use Rattle.std.specs.Prelude.{◌≡◌};
ghost use Rattle.lw_commands.specs.Stops.{code_of, fault_code, load_code, stop_of_read, stop_of_write, stop_of_fault};
ghost use Rattle.lw_commands.specs.declared.stop.Stop.TheVariants.{Memory as memory};

use crate::named::FileFault;
use lw_base::NoMemory;
use lw_frame::FrameFault;
use lw_io::{ReadFault, WriteFault};
use lw_lang::CompileFault;
use lw_load::LoadFault;

/// Why a run stops, one variant for each cause.
#[derive(Drop)]
pub(crate) enum Stop {
    /// The words are no command.
    Words,
    /// The grammar is not compiled.
    Grammar(CompileFault),
    /// A file that the words name is not read.
    File(FileFault),
    /// The source failed.
    Read,
    /// The sink failed.
    Write,
    /// There was no memory.
    Memory,
    /// The frames of a session have a fault.
    Frames(FrameFault),
    /// A session has as many bytes as it may have, and goes on.
    Limit,
}

impl Stop {
    /// The status that a run ends with.
    pub(crate) fn code(&self) -> u8
        ensures { result ≡ code_of self.now }
    {
        match self {
            Stop::Words => 2,
            Stop::Grammar(fault) => fault_code(fault),
            Stop::File(_) => 6,
            Stop::Read => 4,
            Stop::Write => 5,
            Stop::Memory => 7,
            Stop::Frames(_) => 8,
            Stop::Limit => 10,
        }
    }
}

// The status that each fault of a grammar ends with.
fn fault_code(fault: &CompileFault) -> u8
    ensures { result ≡ fault_code fault.now }
{
    match fault {
        CompileFault::Load(found) => load_code(found),
        CompileFault::Faults(_) | CompileFault::Term(_) | CompileFault::Look(_) => 3,
        CompileFault::NoMemory => 7,
    }
}

// The status that each fault of loading ends with.
fn load_code(fault: &LoadFault) -> u8
    ensures { result ≡ load_code fault.now }
{
    match fault {
        LoadFault::Absent(_)
        | LoadFault::NotUtf8(_)
        | LoadFault::TooLong(_)
        | LoadFault::StoreFault(_) => 6,
        LoadFault::Read(_, _, _) | LoadFault::TooLarge(_) => 3,
        LoadFault::NoMemory => 7,
    }
}

impl From<NoMemory> for Stop {
    ghost from_gives = { λ _ stop. stop ≡ memory };

    fn from(_: NoMemory) -> Self {
        Stop::Memory
    }
}

impl From<ReadFault> for Stop {
    ghost from_gives = { λ fault stop. stop ≡ stop_of_read fault };

    fn from(fault: ReadFault) -> Self {
        match fault {
            ReadFault::Failed => Stop::Read,
            ReadFault::NoMemory => Stop::Memory,
        }
    }
}

impl From<WriteFault> for Stop {
    ghost from_gives = { λ fault stop. stop ≡ stop_of_write fault };

    fn from(fault: WriteFault) -> Self {
        match fault {
            WriteFault::Failed => Stop::Write,
            WriteFault::NoMemory => Stop::Memory,
        }
    }
}

impl From<CompileFault> for Stop {
    ghost from_gives = { λ fault stop. stop ≡ stop_of_fault fault };

    fn from(fault: CompileFault) -> Self {
        match fault {
            CompileFault::NoMemory => Stop::Memory,
            found => Stop::Grammar(found),
        }
    }
}
