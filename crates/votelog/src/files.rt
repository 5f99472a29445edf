use crate::messages::message;
use phrases::failure::Failure;
use std::{fs, io};

// What could not be done to a file, which is named.
fn cannot(rt: &HostRuntime, act: &str, path: &str, error: io::Error) -> Failure {
    message(rt.alloc(), format_args!("cannot {act} {path:?}: {error}"))
}

pub(crate) fn bytes_of(rt: &HostRuntime, path: &str) -> Result<Vec<u8>, Failure> {
    fs::read(rt, path).map_err(|error| cannot(rt, "read", path, error))
}

// A file's text. A file with a zero byte is none, as most files of records have one.
pub(crate) fn text_of(rt: &HostRuntime, path: &str) -> Result<String, Failure> {
    let text = fs::read_to_string(rt, path).map_err(|error| cannot(rt, "read", path, error))?;
    if text.as_bytes().contains(&0) {
        return Err(message(rt.alloc(), format_args!("{path:?} is no file of lines")));
    }
    Ok(text)
}

pub(crate) fn put(rt: &HostRuntime, path: &str, bytes: &[u8]) -> Result<(), Failure> {
    fs::write(rt, path, bytes).map_err(|error| cannot(rt, "write", path, error))
}

// The keys that a file holds, 64 bits each, the lowest byte first.
pub(crate) fn keys_of(rt: &HostRuntime, path: &str) -> Result<Vec<u64>, Failure> {
    let heap = rt.alloc();
    let bytes = bytes_of(rt, path)?;
    let (keys, rest) = bytes.as_slice().as_chunks::<8>();
    if !rest.is_empty() {
        return Err(message(heap, format_args!("{path:?} ends within a key of 8 bytes")));
    }
    Ok(
        keys.iter()
            .map(|key| u64::from_le_bytes(*key))
            .collect(heap)?,
    )
}
