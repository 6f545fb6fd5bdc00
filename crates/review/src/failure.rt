//! What ends a script before its last line.
use lines::calls::Expected;
use std::alloc::AllocError;
use std::io;
use thiserror::Error;

#[derive(Debug, Drop, Error)]
pub enum Failure {
    #[error("usage: review [FILE]")]
    Usage,
    #[error("cannot read {path}: {error}")]
    Unreadable { path: String, error: io::Error },
    #[error("line {number}: {expected}")]
    NoCall { number: usize, expected: Expected },
    #[error("{0}")]
    Memory(#[from] AllocError),
    #[error("{0}")]
    Output(#[from] io::Error),
}
