use crate::answers::refused;
use crate::samples::{SAMPLES, Sample};
use calls::call::{Call, same_call};
use calls::records::{read, write};
use std::process::Abort;
use std::test::Fail;
use values::payload::{BlockName, Digest, Payload};

fn reads_as(bytes: &[u8], call: &Call<Digest>) -> bool {
    read::<Digest>(bytes).is_ok_and(|other| same_call(call, &other))
}

fn record_of(call: &Call<Digest>) -> [u8; 89] {
    let mut bytes = [0xee; 89];
    let _ = write(call, &mut bytes);
    bytes
}

fn check_lengths(rt: &impl Abort, sample: &Sample) {
    let bytes = record_of(&sample.call);
    assert_eq!(rt; refused(read::<Digest>(&bytes[0..0])), 10);
    assert_eq!(rt; refused(read::<Digest>(&bytes[0..87])), 10);
    assert!(rt; reads_as(&bytes[0..88], &sample.call));
    assert!(rt; reads_as(&bytes, &sample.call));
}

#[test]
fn records_have_88_bytes(rt: HostRuntime) {
    for sample in &SAMPLES {
        check_lengths(&rt, sample);
    }
}

fn check_writes(rt: &impl Abort, sample: &Sample) {
    let mut short = [0xee; 87];
    assert_eq!(rt; refused(write(&sample.call, &mut short)), 10);
    assert_eq!(rt; short, [0xee; 87]);
    let mut long = [0xee; 89];
    assert_eq!(rt; refused(write(&sample.call, &mut long)), 0);
    assert_eq!(rt; long[88], 0xee);
    let mut exact = [0xee; 88];
    assert_eq!(rt; refused(write(&sample.call, &mut exact)), 0);
    assert!(rt; reads_as(&exact, &sample.call));
    assert_eq!(rt; refused(write(&sample.call, &mut [])), 10);
}

#[test]
fn writes_leave_the_rest(rt: HostRuntime) {
    for sample in &SAMPLES {
        check_writes(&rt, sample);
    }
}

// What a record answers whose byte `at` has been changed to a large number.
fn expected(sample: &Sample, at: usize) -> u8 {
    if at == 0 || (at == 1 && sample.has_kind) {
        11
    } else if sample.uses(at) {
        0
    } else {
        12
    }
}

fn check_bytes(rt: &impl Abort, sample: &Sample) {
    let record = record_of(&sample.call);
    // By places, not over a slice: each turn changes one byte of a fresh record.
    for at in 0..88usize {
        let mut other = record;
        other[at] ^= 0x80;
        assert_eq!(rt; refused(read::<Digest>(&other)), expected(sample, at));
        assert!(rt; !reads_as(&other, &sample.call));
    }
}

#[test]
fn every_byte_counts(rt: HostRuntime) {
    for sample in &SAMPLES {
        check_bytes(&rt, sample);
    }
}

// The sample's record with every byte at its largest that it uses past the first two.
fn largest(sample: &Sample) -> [u8; 89] {
    let mut bytes = record_of(&sample.call);
    for (at, byte) in bytes.iter_mut().enumerate() {
        if sample.uses(at) {
            *byte = 0xff;
        }
    }
    bytes
}

fn check_largest(rt: &impl Abort, sample: &Sample) -> Result<(), Fail> {
    let bytes = largest(sample);
    let call = read::<Digest>(&bytes).map_err(|_| Fail::new("the largest numbers are refused"))?;
    assert!(rt; record_of(&call) == bytes);
    Ok(())
}

#[test]
fn largest_numbers_are_read(rt: HostRuntime) -> Result<(), Fail> {
    for sample in &SAMPLES {
        check_largest(&rt, sample)?;
    }
    Ok(())
}

#[test]
fn numbers_not_listed(rt: HostRuntime) {
    for call in 0..=u8::MAX {
        let mut bytes = [0; 88];
        bytes[0] = call;
        // calls 1 to 3 lack a kind; 4 to 7 need none, and zeros are values of all that they use
        let answer = if matches!(call, 4..=7) { 0 } else { 11 };
        assert_eq!(rt; refused(read::<Digest>(&bytes)), answer);
    }
    for kind in 0..=u8::MAX {
        let mut bytes = [0; 88];
        bytes[0] = 3;
        bytes[1] = kind;
        let answer = if matches!(kind, 1..=3) { 0 } else { 11 };
        assert_eq!(rt; refused(read::<Digest>(&bytes)), answer);
    }
}

// A missing-voter question about these words, as bytes.
fn question(w1: u64, w2: u64, w3: u64, w4: u64) -> [u8; 88] {
    let mut bytes = [0; 88];
    bytes[0] = 7;
    bytes[48..56].copy_from_slice(&w1.to_le_bytes());
    bytes[56..64].copy_from_slice(&w2.to_le_bytes());
    bytes[64..72].copy_from_slice(&w3.to_le_bytes());
    bytes[72..80].copy_from_slice(&w4.to_le_bytes());
    bytes
}

#[test]
fn block_names_have_limits(rt: HostRuntime) {
    assert_eq!(rt; refused(read::<BlockName>(&question(0, 0, 0, 0))), 0);
    assert_eq!(rt;
        refused(read::<BlockName>(&question(0xffff, u64::MAX, 0xffff_ffff, 0))),
        0
    );
    assert_eq!(rt;
        refused(read::<BlockName>(&question(0x1_0000, 0, 0, 0))),
        13
    );
    assert_eq!(rt;
        refused(read::<BlockName>(&question(0, 0, 0x1_0000_0000, 0))),
        13
    );
    assert_eq!(rt; refused(read::<BlockName>(&question(0, 0, 0, 1))), 13);
    assert_eq!(rt;
        refused(read::<BlockName>(&question(0, 0, 0, u64::MAX))),
        13
    );
    assert_eq!(rt;
        refused(read::<Digest>(&question(u64::MAX, u64::MAX, u64::MAX, u64::MAX))),
        0
    );
}

#[test]
fn block_names_are_written_back(rt: HostRuntime) -> Result<(), Fail> {
    let bytes = question(0xffff, u64::MAX, 0xffff_ffff, 0);
    let call = read::<BlockName>(&bytes).map_err(|_| Fail::new("a block name is refused"))?;
    let mut again = [0xee; 88];
    assert!(rt; write(&call, &mut again).is_ok());
    assert!(rt; again == bytes);
    Ok(())
}

#[test]
fn refusals_come_in_order(rt: HostRuntime) {
    // words that are no block name, then an unused byte too, then no such call too
    let mut bytes = question(0x1_0000, 0, 0, 0);
    assert_eq!(rt; refused(read::<BlockName>(&bytes)), 13);
    bytes[87] = 1;
    assert_eq!(rt; refused(read::<BlockName>(&bytes)), 12);
    bytes[0] = 8;
    assert_eq!(rt; refused(read::<BlockName>(&bytes)), 11);
    assert_eq!(rt; refused(read::<BlockName>(&bytes[0..87])), 10);
}
