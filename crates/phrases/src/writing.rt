use crate::failure::Failure;
use crate::lines::{Line, line_from};
use crate::payloads::Spoken;
use crate::reading::{Tokens, begins_with_digit};
use calls::call::Call;
use calls::records::{RECORD, write};
use checks::votes::sign_call;
use directory::directory::Directory;
use std::alloc::Global;
use thiserror::Error;

// Why a line has no record.
#[derive(Clone, Copy, Debug, Error)]
enum Fault {
    #[error("is no call")]
    NoCall,
    #[error("says good, which takes --keys")]
    NoKeys,
    #[error("says good for a signer that is no participant")]
    NoParticipant,
}

impl Fault {
    // What to tell the user of a line of a file.
    fn at(self, heap: Global, path: &str, number: usize, line: &str) -> Result<Failure, Failure> {
        Ok(Failure::Message(format!(in heap; "{path:?} line {number} {self}: {line:?}")?))
    }
}

fn call_of<P: Spoken>(
    tokens: &mut Tokens<'_>,
    stations: &Option<Directory>,
) -> Result<Call<P>, Fault> {
    match line_from::<P>(tokens).ok_or(Fault::NoCall)? {
        Line::Whole(call) => Ok(call),
        Line::Good(call) => {
            let directory = stations.as_ref().ok_or(Fault::NoKeys)?;
            sign_call(directory, call).ok_or(Fault::NoParticipant)
        }
    }
}

fn record_of<P: Spoken>(call: &Call<P>) -> [u8; RECORD] {
    let mut bytes = [0; RECORD];
    write(call, &mut bytes).unwrap();
    bytes
}

// The records of the lines that begin with a number. Another line is passed over. Where a line
// says good for a signature, the station's tag is filled in.
pub fn records_of<P: Spoken>(
    heap: Global,
    path: &str,
    text: &str,
    stations: &Option<Directory>,
) -> Result<Vec<u8>, Failure> {
    let mut bytes = Vec::new(heap);
    let lines = text.lines().enumerate();
    for (i, line) in lines.filter(|(_, line)| begins_with_digit(line.trim_start())) {
        let mut tokens = Tokens::from(line);
        let call = call_of::<P>(&mut tokens, stations).try_map_err(|fault| fault.at(
            heap,
            path,
            i.saturating_add(1),
            line,
        ))?;
        bytes.extend_from_slice(&record_of(&call))?;
    }
    Ok(bytes)
}
