//! Why a copy has failed.
use std::io;
use thiserror::Error;

/// Why a copy has ended before the end of what it reads.
#[derive(Clone, Copy, Debug, Error)]
pub enum Failure {
    /// Reading failed.
    #[error("cannot read standard input: {0}")]
    Input(io::Error),
    /// Writing failed.
    #[error("cannot write to standard output: {0}")]
    Output(io::Error),
}
