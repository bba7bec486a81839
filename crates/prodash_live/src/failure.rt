//! Why the program failed.
ghost use Rattle.std.specs.Prelude.{◌≡◌};

use prodash::Refusal;
use std::alloc::{AllocError, AllocFailed};
use std::io;

/// Why the program failed.
#[derive(Clone, Copy, Debug)]
pub enum Failure {
    /// Reading the input failed.
    Input(io::Error),
    /// Writing the output failed.
    Output(io::Error),
    /// Creating or writing the recording failed.
    Recording(io::Error),
    /// There is no memory.
    Memory,
    /// A thread couldn't be started.
    Thread,
}

impl Failure {
    /// Returns the failure of a read.
    pub fn of_read(error: io::Error) -> Failure {
        match error.kind() {
            io::ErrorKind::OutOfMemory => Failure::Memory,
            _ => Failure::Input(error),
        }
    }
}

impl From<AllocError> for Failure {
    fn from(_error: AllocError) -> Failure {
        Failure::Memory
    }
}

impl<T: Drop> From<AllocFailed<T>> for Failure {
    fn from(_error: AllocFailed<T>) -> Failure {
        Failure::Memory
    }
}

impl From<Refusal> for Failure {
    /// Of all calls of this program only those that start threads are refused for want of one, and
    /// the others for want of memory.
    fn from(refusal: Refusal) -> Failure {
        match refusal {
            Refusal::NoThread => Failure::Thread,
            _ => Failure::Memory,
        }
    }
}
