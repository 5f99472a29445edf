use crate::files::{bytes_of, keys_of, put, text_of};
use crate::options::{CheckFiles, FileCommand, ShowFiles, WriteFiles};
use calls::records::RECORD;
use phrases::failure::Failure;
use phrases::payloads::Spoken;
use phrases::showing::directory_of;
use phrases::writing::records_of;
use phrases::{checking, showing};
use std::io;
use std::io::Write;

// Prints on standard output behind a buffer. Where a step fails, what was printed before it stands.
fn print<F: FnOnce(&mut io::BufWriter<io::Stdout>) -> Result<(), Failure>>(
    rt: &HostRuntime,
    tell: F,
) -> Result<(), Failure>
    requires { F.IsAlwaysCallable tell }
{
    let mut out = io::BufWriter::new(rt.alloc(), rt.stdout()).map_err(|_| Failure::Memory)?;
    let told = tell(&mut out);
    out.flush()?;
    told
}

fn asked_keys(rt: &HostRuntime, path: Option<&str>) -> Result<Option<Vec<u64>>, Failure> {
    path.map(|path| keys_of(rt, path)).transpose()
}

// Prints the records of a file in words, under the directory if there is one.
fn show<P: Spoken>(rt: &HostRuntime, asked: &ShowFiles) -> Result<(), Failure> {
    let bytes = bytes_of(rt, asked.calls.as_str())?;
    let keys = asked_keys(rt, asked.keys.as_deref())?;
    print(
        rt,
        |out| showing::tell_all::<P, _>(out, &keys, bytes.as_slice()),
    )
}

// Writes the calls of a file of lines as records. A byte-order mark in front is no part of a line.
fn write<P: Spoken>(rt: &HostRuntime, asked: &WriteFiles) -> Result<(), Failure> {
    let path = asked.lines.as_str();
    let text = text_of(rt, path)?;
    let stations = asked_keys(rt, asked.keys.as_deref())?
        .map(|keys| directory_of(&mut rt.stdout(), keys.as_slice()))
        .transpose()?;
    let lines = text.trim_start_matches('\u{feff}');
    let bytes = records_of::<P>(rt.alloc(), path, lines, &stations)?;
    put(rt, asked.calls.as_str(), bytes.as_slice())?;
    let records = bytes.len() / RECORD;
    println!(rt; "records {records}")?;
    Ok(())
}

// Says of each vote of a file whether its signature is good.
fn check<P: Spoken>(rt: &HostRuntime, asked: &CheckFiles) -> Result<(), Failure> {
    let bytes = bytes_of(rt, asked.calls.as_str())?;
    let keys = keys_of(rt, asked.keys.as_str())?;
    print(rt, |out| {
        checking::check::<P, _>(
            out,
            keys.as_slice(),
            asked.scheme,
            asked.layers,
            bytes.as_slice(),
        )
    })
}

// Does what is asked of files with payloads of this kind.
pub(crate) fn run<P: Spoken>(rt: &HostRuntime, asked: &FileCommand) -> Result<(), Failure> {
    match asked {
        FileCommand::Show(asked) => show::<P>(rt, asked),
        FileCommand::Write(asked) => write::<P>(rt, asked),
        FileCommand::Check(asked) => check::<P>(rt, asked),
    }
}
