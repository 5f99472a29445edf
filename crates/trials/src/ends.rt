use sinks::counter::Counter;
use sinks::log::Log;
use sinks::pair::Pair;
use sinks::sink::Sink;
use sinks::slip::{Ruling, Settle, Slip};
use std::process::Abort;
use values::cause::Cause;
use values::refusal::Refusal;
use values::types::Kind;

const NONE: Pair = Pair {
    first: 0,
    second: 0,
};

const STAIRS: Pair = Pair {
    first: 0x0807_0605_0403_0201,
    second: u64::MAX,
};

const LARGEST: Pair = Pair {
    first: u64::MAX,
    second: 0,
};

#[test]
fn counters_count(rt: HostRuntime) {
    let mut counter = Counter::new();
    assert_eq!(rt; counter.count(), 0);
    assert_eq!(rt; counter.capacity(), u64::MAX);
    assert_eq!(rt; counter.latest(), NONE);
    counter.tell(STAIRS);
    counter.tell(LARGEST);
    assert_eq!(rt; counter.count(), 2);
    assert_eq!(rt; counter.capacity(), u64::MAX - 2);
    assert_eq!(rt; counter.latest(), LARGEST);
}

// Tells two pairs to a log over these bytes.
fn log_two(rt: &impl Abort, bytes: &mut [u8], room: u64) {
    let mut log = Log::new(bytes);
    assert_eq!(rt; log.count(), 0);
    assert_eq!(rt; log.capacity(), room);
    assert_eq!(rt; log.latest(), NONE);
    log.tell(STAIRS);
    log.tell(LARGEST);
    assert_eq!(rt; log.count(), room);
    assert_eq!(rt; log.capacity(), 0);
    let latest = match room {
        0 => NONE,
        1 => STAIRS,
        _ => LARGEST,
    };
    assert_eq!(rt; log.latest(), latest);
}

// The bytes of a log of two pairs with room for so many.
fn logged(room: u64) -> [u8; 33] {
    let mut bytes = [0xee; 33];
    if room > 0 {
        bytes[0..8].copy_from_slice(&[1, 2, 3, 4, 5, 6, 7, 8]);
        bytes[8..16].copy_from_slice(&[0xff; 8]);
    }
    if room > 1 {
        bytes[16..24].copy_from_slice(&[0xff; 8]);
        bytes[24..32].copy_from_slice(&[0; 8]);
    }
    bytes
}

#[test]
fn logs_fill(rt: HostRuntime) {
    for (length, room) in [(0usize, 0), (15, 0), (16, 1), (17, 1), (31, 1), (32, 2)] {
        let mut bytes = [0xee; 33];
        assert!(rt; length <= 33);
        log_two(&rt, &mut bytes[0..length], room);
        assert!(rt; bytes == logged(room));
    }
}

#[test]
fn logs_show_their_bytes(rt: HostRuntime) {
    let mut bytes = [0xee; 17];
    let mut log = Log::new(&mut bytes);
    log.tell(LARGEST);
    assert_eq!(rt; log.bytes().len(), 17);
    assert_eq!(rt; log.bytes().first().copied(), Some(0xff));
    assert_eq!(rt; log.bytes().last().copied(), Some(0xee));
}

#[test]
fn sinks_may_be_absent(rt: HostRuntime) {
    let mut absent: Option<Counter> = None;
    absent.tell(STAIRS);
    assert!(rt; absent.is_none());
    let mut present = Some(Counter::new());
    present.tell(STAIRS);
    assert_eq!(rt; present.map(|counter| counter.count()), Some(1));
}

const BLAMED: Ruling = Ruling {
    refusal: None,
    taken: false,
    key: u64::MAX,
    cause: Some(Cause::Conflict(Kind::Finalize)),
};

const REFUSED: Ruling = Ruling {
    refusal: Some(Refusal::OtherRound),
    taken: true,
    key: 11,
    cause: None,
};

#[test]
fn rulings_have_numbers(rt: HostRuntime) {
    assert_eq!(rt; BLAMED.refusal_number(), 0);
    assert_eq!(rt; BLAMED.cause_number(), 10);
    assert_eq!(rt; REFUSED.refusal_number(), 4);
    assert_eq!(rt; REFUSED.cause_number(), 0);
}

#[test]
fn settling_tells_the_cause(rt: HostRuntime) {
    let mut counter = Counter::new();
    let refused = Slip::new(REFUSED).settle(&mut counter);
    assert_eq!(rt; counter.count(), 0);
    assert!(rt; refused.taken);
    assert_eq!(rt; refused.key, 11);
    assert_eq!(rt; refused.refusal_number(), 4);
    let blamed = Slip::new(BLAMED).settle(&mut counter);
    assert_eq!(rt; counter.count(), 1);
    assert_eq!(rt;
        counter.latest(),
        Pair {
            first: u64::MAX,
            second: 10
        }
    );
    assert!(rt; !blamed.taken);
    assert_eq!(rt; blamed.cause_number(), 10);
}

#[test]
fn settling_may_find_no_room(rt: HostRuntime) {
    let mut bytes = [0xee; 15];
    let mut log = Log::new(&mut bytes);
    let blamed = Slip::new(BLAMED).settle(&mut log);
    assert_eq!(rt; blamed.key, u64::MAX);
    assert_eq!(rt; log.count(), 0);
    let mut absent: Option<Counter> = None;
    let again = Slip::new(BLAMED).settle(&mut absent);
    assert_eq!(rt; again.cause_number(), 10);
}
