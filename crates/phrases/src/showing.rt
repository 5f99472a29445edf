use crate::failure::Failure;
use crate::payloads::Spoken;
use crate::words::InWords;
use calls::call::Call;
use calls::records::{RECORD, read};
use directory::directory::Directory;
use std::fmt;
use std::io::Write;
use values::refusal::Refusal;

// How many records of each sort a file has.
#[derive(Clone, Copy, Default)]
struct Totals {
    records: usize,
    network_votes: u64,
    constructed_votes: u64,
    certificates: u64,
    leaders: u64,
    forwards: u64,
    attempts: u64,
    missing_voters: u64,
    refused: u64,
}

impl Totals {
    fn count<P: Spoken>(&mut self, answer: &Result<Call<P>, Refusal>) {
        let one = match answer {
            Ok(Call::NetworkVote(_, _)) => &mut self.network_votes,
            Ok(Call::ConstructedVote(_)) => &mut self.constructed_votes,
            Ok(Call::Certificate(_)) => &mut self.certificates,
            Ok(Call::Leader(_)) => &mut self.leaders,
            Ok(Call::Forward(_)) => &mut self.forwards,
            Ok(Call::Attempt) => &mut self.attempts,
            Ok(Call::MissingVoters(_)) => &mut self.missing_voters,
            Err(_) => &mut self.refused,
        };
        *one = one.saturating_add(1);
    }
}

impl fmt::Display for Totals {
    fn fmt<W: fmt::Write>(&self, f: &mut fmt::Formatter<W>) -> fmt::Result {
        let Totals {
            records,
            network_votes,
            constructed_votes,
            certificates,
            leaders,
            forwards,
            attempts,
            missing_voters,
            refused,
        } = *self;
        writeln!(f, "records {records}, refused {refused}")?;
        writeln!(
            f,
            "network votes {network_votes}, constructed votes {constructed_votes}, certificates {certificates}"
        )?;
        write!(
            f,
            "leaders {leaders}, forwards {forwards}, attempts {attempts}, missing voters {missing_voters}"
        )
    }
}

fn tell_records<P: Spoken, W: Write>(out: &mut W, bytes: &[u8]) -> Result<(), Failure> {
    let records = bytes.chunks(RECORD);
    let mut totals = Totals {
        records: records.len(),
        ..Totals::default()
    };
    for (i, bytes) in records.enumerate() {
        let answer = read::<P>(bytes);
        totals.count(&answer);
        match &answer {
            Ok(call) => writeln!(out, "{i} {}", InWords(call))?,
            Err(refusal) => writeln!(out, "{i} {}", InWords(refusal))?,
        }
    }
    writeln!(out, "{totals}")?;
    Ok(())
}

// The directory of these keys. Says why, where they make none.
pub fn directory_of<W: Write>(out: &mut W, keys: &[u64]) -> Result<Directory, Failure> {
    Directory::new(keys).try_map_err(|refusal| -> Result<Failure, Failure> {
        writeln!(out, "directory {}", InWords(&refusal))?;
        Ok(Failure::Told)
    })
}

fn tell_directory<W: Write>(out: &mut W, keys: &[u64]) -> Result<(), Failure> {
    let directory = directory_of(out, keys)?;
    let n = directory.size();
    let f = directory.faults();
    let quorum = directory.quorum();
    writeln!(out, "participants {n}, f {f}, quorum {quorum}")?;
    for (i, key) in directory.keys().iter().enumerate() {
        writeln!(out, "participant {i} key {key}")?;
    }
    Ok(())
}

// Tells the records in words, under the directory if there are keys.
pub fn tell_all<P: Spoken, W: Write>(
    out: &mut W,
    keys: &Option<Vec<u64>>,
    bytes: &[u8],
) -> Result<(), Failure> {
    if let Some(keys) = keys {
        tell_directory(out, keys.as_slice())?;
    }
    tell_records::<P, W>(out, bytes)
}
