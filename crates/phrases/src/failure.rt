use std::alloc::{AllocError, AllocFailed};
use std::io;
use thiserror::Error;

// Why the program could not do what was asked.
#[derive(Debug, Drop, Error)]
pub enum Failure {
    // what to tell the user, on one line
    #[error("{0}")]
    Message(String),
    // what the user was told on standard output already
    #[error("told already")]
    Told,
    // there was no memory
    #[error("out of memory")]
    Memory,
    // standard output could not be written
    #[error("cannot write the output: {0}")]
    Output(#[from] io::Error),
}

impl Failure {
    // Tells the user on standard error, unless that is done.
    pub fn tell(&self, rt: &HostRuntime) {
        if !matches!(self, Failure::Told) {
            let _ = eprintln!(rt; "votelog: {self}");
        }
    }
}

// By hand, since a derived `From` keeps the error that it is given, and want of memory needs none.
impl From<AllocError> for Failure {
    fn from(_error: AllocError) -> Failure {
        Failure::Memory
    }
}

impl<T: Drop> From<AllocFailed<T>> for Failure {
    fn from(_error: AllocFailed<T>) -> Failure {
        Failure::Memory
    }
}
