use crate::answers::{four, refused};
use directory::directory::Directory;
use std::process::Abort;
use std::test::Fail;

// Keys that ascend from `first` by `step`.
fn ladder(first: u64, step: u64) -> [u64; 65] {
    let mut keys = [0; 65];
    let mut key = first;
    for place in keys.iter_mut() {
        *place = key;
        key = key.wrapping_add(step);
    }
    keys
}

#[test]
fn sizes_come_before_order(rt: HostRuntime) {
    let up = ladder(7, 3);
    let down = ladder(u64::MAX, u64::MAX);
    assert_eq!(rt; refused(Directory::new(&[])), 1);
    assert_eq!(rt; refused(Directory::new(&up[0..1])), 0);
    assert_eq!(rt; refused(Directory::new(&up[0..64])), 0);
    assert_eq!(rt; refused(Directory::new(&up)), 1);
    assert_eq!(rt; refused(Directory::new(&down[0..1])), 0);
    assert_eq!(rt; refused(Directory::new(&down[0..64])), 2);
    assert_eq!(rt; refused(Directory::new(&down)), 1);
}

#[test]
fn keys_ascend_strictly(rt: HostRuntime) {
    assert_eq!(rt; refused(Directory::new(&[0, u64::MAX])), 0);
    assert_eq!(rt; refused(Directory::new(&[5, 5])), 2);
    assert_eq!(rt; refused(Directory::new(&[6, 5])), 2);
    assert_eq!(rt; refused(Directory::new(&[1, 2, 3, 3])), 2);
    assert_eq!(rt; refused(Directory::new(&[1, 3, 2, 4])), 2);
    let mut keys = ladder(1, 1);
    keys[63] = 63;
    assert_eq!(rt; refused(Directory::new(&keys[0..64])), 2);
}

fn check_places(rt: &impl Abort, directory: &Directory) {
    assert_eq!(rt; directory.size(), 4);
    assert_eq!(rt; directory.faults(), 1);
    assert_eq!(rt; directory.quorum(), 3);
    assert_eq!(rt; directory.index(11), Some(0));
    assert_eq!(rt; directory.index(44), Some(3));
    assert_eq!(rt; directory.index(45), None);
    assert_eq!(rt; directory.index(0), None);
    assert_eq!(rt; directory.keys().first().copied(), Some(11));
    assert_eq!(rt; directory.keys().last().copied(), Some(44));
    assert_eq!(rt; directory.keys().len(), 4);
}

#[test]
fn participants_have_places(rt: HostRuntime) -> Result<(), Fail> {
    check_places(&rt, &four()?);
    Ok(())
}

// Two quorums share more participants than may be faulty.
fn check_quorum(rt: &impl Abort, keys: &[u64]) -> Result<(), Fail> {
    let directory = Directory::new(keys).map_err(|_| Fail::new("ascending keys are refused"))?;
    let n = u64::from(directory.size());
    let f = u64::from(directory.faults());
    let quorum = u64::from(directory.quorum());
    assert_eq!(rt; n as usize, keys.len());
    assert_eq!(rt; quorum + f, n);
    assert!(rt; 2 * quorum > n + f);
    Ok(())
}

#[test]
fn quorums_of_each_size(rt: HostRuntime) -> Result<(), Fail> {
    let keys = ladder(1, 1);
    for n in 1..65usize {
        check_quorum(&rt, &keys[0..n])?;
    }
    Ok(())
}
