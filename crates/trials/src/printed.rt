use crate::answers;
use directory::directory::Directory;
use phrases::checking::{Layers, SchemeKind, check as check_votes};
use phrases::reading::mask_of;
use phrases::showing::tell_all;
use phrases::writing::records_of;
use std::alloc::Global;
use std::process::Abort;
use std::test::Fail;
use values::payload::Digest;

const LINES: &str = "a view\n\
    0 leader 2\n\
    1 network vote key 11 signer 0 nullify epoch 1 view 7 signature good\n\
    2 constructed vote signer 1 finalize epoch 1 view 7 parent 6 digest 9 0 0 0 signature good\n\
    3 network vote key 44 signer 3 nullify epoch 1 view 7 signature 2465\n\
    4 attempt\n";

const SHOWN: &str = "participants 4, f 1, quorum 3\n\
    participant 0 key 11\n\
    participant 1 key 22\n\
    participant 2 key 33\n\
    participant 3 key 44\n\
    0 leader 2\n\
    1 network vote key 11 signer 0 nullify epoch 1 view 7 signature 616\n\
    2 constructed vote signer 1 finalize epoch 1 view 7 parent 6 digest 9 0 0 0 signature 5280\n\
    3 network vote key 44 signer 3 nullify epoch 1 view 7 signature 2465\n\
    4 attempt\n\
    records 5, refused 0\n\
    network votes 2, constructed votes 1, certificates 0\n\
    leaders 1, forwards 0, attempts 1, missing voters 0\n";

fn stations() -> Result<Option<Directory>, Fail> {
    Ok(Some(answers::four()?))
}

fn records(heap: Global) -> Result<Vec<u8>, Fail> {
    records_of::<Digest>(heap, "lines", LINES, &stations()?).map_err(|_| Fail::new(
        "the lines are refused",
    ))
}

fn four(heap: Global) -> Result<Vec<u64>, Fail> {
    let mut keys = Vec::new(heap);
    keys.extend_from_slice(answers::four()?.keys())?;
    Ok(keys)
}

#[test]
fn good_signatures_are_filled_in(rt: HostRuntime) -> Result<(), Fail> {
    let heap = rt.alloc();
    let bytes = records(heap)?;
    let mut out: Vec<u8> = Vec::new(heap);
    let told = tell_all::<Digest, Vec<u8>>(&mut out, &Some(four(heap)?), bytes.as_slice());
    assert!(rt; told.is_ok());
    assert!(rt; out.as_slice() == SHOWN.as_bytes());
    Ok(())
}

#[test]
fn good_takes_keys_and_a_participant(rt: HostRuntime) -> Result<(), Fail> {
    let heap = rt.alloc();
    let outside = "0 constructed vote signer 4 nullify epoch 1 view 7 signature good";
    assert!(rt; records_of::<Digest>(heap, "lines", LINES, &None).is_err());
    assert!(rt; records_of::<Digest>(heap, "lines", outside, &stations()?).is_err());
    Ok(())
}

fn checked(
    rt: &impl Abort,
    heap: Global,
    scheme: SchemeKind,
    layers: Layers,
    expected: &str,
) -> Result<(), Fail> {
    let bytes = records(heap)?;
    let keys = four(heap)?;
    let mut out: Vec<u8> = Vec::new(heap);
    let told = check_votes::<Digest, Vec<u8>>(
        &mut out,
        keys.as_slice(),
        scheme,
        layers,
        bytes.as_slice(),
    );
    assert!(rt; told.is_ok());
    assert!(rt; out.as_slice() == expected.as_bytes());
    Ok(())
}

#[test]
fn signatures_are_checked(rt: HostRuntime) -> Result<(), Fail> {
    let heap = rt.alloc();
    let bare = "1 good\n2 good\n3 not good\nvotes 3, good 2, not good 1\nrecords 5, refused 0\n";
    let one = "1 good\n2 not good\n3 not good\nvotes 3, good 1, not good 2\nrecords 5, refused 0\n";
    let two =
        "1 not good\n2 not good\n3 not good\nvotes 3, good 0, not good 3\nrecords 5, refused 0\n";
    for scheme in [SchemeKind::Listed, SchemeKind::Summed] {
        checked(&rt, heap, scheme, Layers::Bare, bare)?;
        checked(&rt, heap, scheme, Layers::One(2), one)?;
        checked(&rt, heap, scheme, Layers::Two(1, 2), two)?;
        checked(&rt, heap, scheme, Layers::Two(2, 1), two)?;
        checked(&rt, heap, scheme, Layers::Two(0, u64::MAX), two)?;
    }
    Ok(())
}

#[test]
fn masks_are_hexadecimal(rt: HostRuntime) {
    assert_eq!(rt; mask_of("0"), Some(0));
    assert_eq!(rt; mask_of("a8"), Some(168));
    assert_eq!(rt; mask_of("0xA8"), Some(168));
    assert_eq!(rt; mask_of("ffffffffffffffff"), Some(u64::MAX));
    for word in [
        "",
        "0x",
        "+1",
        "0x+1",
        "-1",
        "g",
        "0x0x1",
        "10000000000000000",
    ] {
        assert_eq!(rt; mask_of(word), None);
    }
}
