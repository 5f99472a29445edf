// votelog: shows files of call records in words, writes such words back as records, and checks the
// signatures of votes.
#![tactic(auto)]

mod choices;
mod commands;
mod files;
mod messages;
mod options;

use choices::PayloadKind;
use options::Command;
use phrases::failure::Failure;
use std::process::ExitCode;
use values::payload::{BlockName, Digest};

const HELP: &str = "votelog: files of vote-counting calls, in words and as records

votelog show CALLS [--keys KEYS] [--payload digest|block]
    prints each 88-byte record of CALLS in words, then totals;
    with KEYS, a file of 64-bit little-endian keys, first the participants
votelog write LINES CALLS [--keys KEYS] [--payload digest|block]
    turns such lines back into records; lines that begin with no number are passed over;
    with KEYS, a signature may be the word good
votelog check CALLS --keys KEYS [--scheme listed|summed] [--withdrawn HEXMASK]
    [--withdrawn HEXMASK] [--payload digest|block]
    says of each vote whether its signature is good; the masks' participants are withdrawn
votelog --help
votelog --version";

fn run(rt: &HostRuntime) -> Result<(), Failure> {
    match options::asked(rt)? {
        Command::Help => Ok(rt.println(HELP)?),
        Command::Version => Ok(rt.println("votelog 0.1.0")?),
        // each kind of payload is another type, which a match alone can choose
        Command::Files(asked, PayloadKind::Digest) => commands::run::<Digest>(rt, &asked),
        Command::Files(asked, PayloadKind::Block) => commands::run::<BlockName>(rt, &asked),
    }
}

// What went wrong is told on one line, and ends the program with status 1.
fn main(rt: HostRuntime) -> ExitCode {
    match run(&rt) {
        Ok(()) => ExitCode::SUCCESS,
        Err(failure) => {
            failure.tell(&rt);
            ExitCode::FAILURE
        }
    }
}
