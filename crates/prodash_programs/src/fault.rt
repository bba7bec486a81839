ghost use Rattle.std.specs.Prelude.{◌≡◌};
ghost use Rattle.std.specs.IoError.{error_kind};
ghost use Rattle.prodash_programs.specs.declared.fault.Fault.TheVariants.{Memory};
ghost use Rattle.prodash_programs.specs.Faults.{fault_of_read, fault_of_refusal, fault_of_signs};

use prodash_base::Refusal;
use prodash_line::render::line::page;
use std::alloc::{AllocError, AllocFailed};
use std::io;
use thiserror::Error;

/// Why a program failed. Its text is the line that the program writes to standard error.
#[derive(Clone, Copy, Debug, PartialEq, Eq, Error)]
pub enum Fault {
    /// The arguments are not those that this text lists.
    #[error("usage: {0}")]
    Usage(&'static str),
    /// An argument is not UTF-8.
    #[error("an argument is not UTF-8")]
    Arguments,
    /// This line of the input, counted from 1, is not an event.
    #[error("line {0}: not an event")]
    Line(u64),
    /// No sign begins at this byte of the frames, and the bytes before it are signs.
    #[error("byte {0}: not a sign")]
    Sign(usize),
    /// The journal of the recorded calls is not that of the accepted ones.
    #[error("the journal does not have the accepted calls")]
    Journal,
    /// Reading the input failed.
    #[error("input is broken")]
    Input,
    /// Writing the output failed.
    #[error("output is broken")]
    Output,
    /// Out of memory.
    #[error("no memory")]
    Memory,
    /// A thread couldn't be started.
    #[error("no thread")]
    Thread,
}

impl Fault {
    ghost use Rattle.prodash_programs.specs.Faults.{status_of};

    /// The exit status: 2 if the arguments or the input are at fault, else 1.
    pub fn status(&self) -> u8
        ensures { result ≡ status_of self.now }
    {
        match self {
            Fault::Usage(_) | Fault::Arguments | Fault::Line(_) => 2,
            Fault::Sign(_) | Fault::Journal => 1,
            Fault::Input | Fault::Output | Fault::Memory | Fault::Thread => 1,
        }
    }

    /// The fault of a read that failed: out of memory, or else `Input`.
    pub fn of_input(error: &io::Error) -> Fault
        ensures { result ≡ fault_of_read (error_kind error.now) }
    {
        match error.kind() {
            io::ErrorKind::OutOfMemory => Fault::Memory,
            _ => Fault::Input,
        }
    }
}

impl From<AllocError> for Fault {
    ghost from_gives = { λ _ e. e ≡ Memory };

    fn from(_error: AllocError) -> Fault {
        Fault::Memory
    }
}

impl<T: Drop> From<AllocFailed<T>> for Fault {
    ghost from_gives = { λ _ e. e ≡ Memory };

    fn from(_error: AllocFailed<T>) -> Fault {
        Fault::Memory
    }
}

impl From<page::Fault> for Fault {
    ghost from_gives = { λ fault e. e ≡ fault_of_signs fault };

    fn from(fault: page::Fault) -> Fault {
        match fault {
            page::Fault::At(n) => Fault::Sign(n),
            page::Fault::Memory => Fault::Memory,
        }
    }
}

impl From<Refusal> for Fault {
    ghost from_gives = { λ refusal e. e ≡ fault_of_refusal refusal };

    /// A refusal that ends a program comes of a thread that couldn't be started, or else of memory:
    /// a `MemoryScreen` breaks only if it can't grow.
    fn from(refusal: Refusal) -> Fault {
        match refusal {
            Refusal::NoThread => Fault::Thread,
            _ => Fault::Memory,
        }
    }
}
