use crate::failure::Failure;
use crate::payloads::Spoken;
use crate::showing::directory_of;
use bench::listed::Listed;
use bench::summed::Summed;
use calls::records::RECORD;
use checks::votes::judge;
use scheme::scheme::Scheme;
use scheme::withdrawn::Withdrawn;
use std::fmt;
use std::io::Write;
use values::refusal::Refusal;

#[derive(Clone, Copy, Debug, Default, PartialEq, Eq)]
pub enum SchemeKind {
    #[default]
    Listed,
    Summed,
}

// The masks of withdrawn participants that stand over a scheme, the inner one first.
#[derive(Clone, Copy, Debug, Default, PartialEq, Eq)]
pub enum Layers {
    #[default]
    Bare,
    One(u64),
    Two(u64, u64),
}

impl Layers {
    // Both masks. A mask of 0 withdraws nobody.
    fn masks(self) -> (u64, u64) {
        match self {
            Layers::Bare => (0, 0),
            Layers::One(mask) => (mask, 0),
            Layers::Two(inner, outer) => (inner, outer),
        }
    }
}

// How the votes of a file were judged.
#[derive(Clone, Copy, Default)]
struct Judged {
    records: usize,
    good: u64,
    bad: u64,
    refused: u64,
}

impl Judged {
    fn count(&mut self, answer: &Result<Option<bool>, Refusal>) {
        let one = match answer {
            Ok(Some(true)) => &mut self.good,
            Ok(Some(false)) => &mut self.bad,
            Ok(None) => return,
            Err(_) => &mut self.refused,
        };
        *one = one.saturating_add(1);
    }
}

impl fmt::Display for Judged {
    fn fmt<W: fmt::Write>(&self, f: &mut fmt::Formatter<W>) -> fmt::Result {
        let Judged {
            records,
            good,
            bad,
            refused,
        } = *self;
        let votes = good.saturating_add(bad);
        writeln!(f, "votes {votes}, good {good}, not good {bad}")?;
        write!(f, "records {records}, refused {refused}")
    }
}

fn check_votes<P: Spoken, S: Scheme<P>, W: Write>(
    out: &mut W,
    scheme: &mut S,
    bytes: &[u8],
) -> Result<(), Failure> {
    let records = bytes.chunks(RECORD);
    let mut judged = Judged {
        records: records.len(),
        ..Judged::default()
    };
    for (i, bytes) in records.enumerate() {
        let answer = judge::<P, S>(scheme, bytes);
        judged.count(&answer);
        match answer {
            Ok(Some(true)) => writeln!(out, "{i} good")?,
            Ok(Some(false)) => writeln!(out, "{i} not good")?,
            _ => (),
        }
    }
    writeln!(out, "{judged}")?;
    Ok(())
}

fn check_layers<P: Spoken, S: Scheme<P> + Drop, W: Write>(
    out: &mut W,
    scheme: S,
    layers: Layers,
    bytes: &[u8],
) -> Result<(), Failure> {
    let (inner, outer) = layers.masks();
    let below = Withdrawn {
        below: scheme,
        mask: inner,
    };
    let mut pile = Withdrawn { below, mask: outer };
    check_votes(out, &mut pile, bytes)
}

// Tells for each record with a vote, under the record's number, whether the signature is good.
pub fn check<P: Spoken, W: Write>(
    out: &mut W,
    keys: &[u64],
    scheme: SchemeKind,
    layers: Layers,
    bytes: &[u8],
) -> Result<(), Failure> {
    let directory = directory_of(out, keys)?;
    // Each arm is another type, which a match alone can choose: a `dyn` of a trait with parameters
    // gets no proof.
    match scheme {
        SchemeKind::Listed => check_layers::<P, _, _>(out, Listed { directory }, layers, bytes),
        SchemeKind::Summed => check_layers::<P, _, _>(out, Summed { directory }, layers, bytes),
    }
}
