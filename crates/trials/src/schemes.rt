use crate::answers::four;
use bench::listed::Listed;
use bench::masked::Masked;
use bench::summed::Summed;
use directory::directory::Directory;
use scheme::asking::{ask, ask_pile};
use scheme::scheme::Scheme;
use scheme::withdrawn::Withdrawn;
use std::process::Abort;
use std::test::Fail;
use tags::number::{PRIME, number};
use tags::signing::{is_tagged, sign};
use values::payload::Digest;
use values::types::{Attestation, Proposal, Rnd, Subject};

const NULLIFY: Subject<Digest> = Subject::Nullify(Rnd { epoch: 1, view: 7 });

fn by(signer: u32, signature: u64) -> Attestation {
    Attestation { signer, signature }
}

// The good nullifies of the four participants.
fn nullifies() -> [Attestation; 4] {
    [by(0, 616), by(1, 1232), by(2, 1848), by(3, 2464)]
}

// A scheme answers the first places and leaves the others, which hold the opposite before.
fn check_places<S: Scheme<Digest>>(rt: &impl Abort, scheme: &mut S) {
    let votes = [by(0, 616), by(1, 1231), by(4, 0), by(3, 2464)];
    let good = [true, false, false, true];
    let before = [false, true, true, false, true, false];
    for places in 0..=6usize {
        let mut verdicts = before;
        scheme.verify_attestations(NULLIFY, &votes, &mut verdicts[..places]);
        let told = places.min(4);
        let mut expected = before;
        expected[..told].copy_from_slice(&good[..told]);
        assert_eq!(rt; verdicts, expected);
    }
}

#[test]
fn verdicts_have_places(rt: HostRuntime) -> Result<(), Fail> {
    let directory = four()?;
    check_places(&rt, &mut Listed { directory });
    check_places(&rt, &mut Summed { directory });
    let mut none = [true; 2];
    Listed { directory }.verify_attestations(NULLIFY, &[], &mut none);
    assert!(rt; none[0] && none[1]);
    Ok(())
}

fn certificate(mask: u64, seal: u64) -> Option<Masked> {
    Some(Masked { mask, seal })
}

fn check_both<S: Scheme<Digest, Certificate = Masked>>(
    rt: &impl Abort,
    scheme: &mut S,
    votes: &[Attestation],
    optimistic: Option<Masked>,
    assembled: Option<Masked>,
) {
    let answers = ask(scheme, NULLIFY, votes, &mut []);
    assert_eq!(rt; answers.optimistic, optimistic);
    assert_eq!(rt; answers.assembled, assembled);
}

// Lists that get nothing from either scheme.
#[test]
fn lists_without_a_quorum(rt: HostRuntime) -> Result<(), Fail> {
    let directory = four()?;
    let votes = nullifies();
    let repeated = [votes[0], votes[1], votes[2], votes[1]];
    let outside = [votes[0], votes[1], votes[2], by(4, 0)];
    let far = [by(u32::MAX, 0), votes[1], votes[2]];
    for list in [
        &votes[0..0],
        &votes[0..2],
        &repeated,
        &repeated[1..4],
        &outside,
        &far,
    ] {
        check_both(&rt, &mut Listed { directory }, list, None, None);
        check_both(&rt, &mut Summed { directory }, list, None, None);
    }
    Ok(())
}

#[test]
fn quorums_are_sealed(rt: HostRuntime) -> Result<(), Fail> {
    let directory = four()?;
    let votes = nullifies();
    let turned = [votes[2], votes[0], votes[1]];
    let shifted = [by(0, 617), by(1, 1231), by(2, 1848)];
    let wrapped = [by(0, 616 + PRIME), votes[1], votes[2]];
    let seal = certificate(7, 632016);
    let sum = certificate(7, 3696);
    check_both(&rt, &mut Listed { directory }, &votes[0..3], seal, seal);
    check_both(&rt, &mut Listed { directory }, &turned, seal, seal);
    check_both(&rt, &mut Listed { directory }, &shifted, None, None);
    check_both(&rt, &mut Listed { directory }, &wrapped, None, None);
    check_both(&rt, &mut Summed { directory }, &turned, sum, sum);
    check_both(&rt, &mut Summed { directory }, &shifted, sum, sum);
    check_both(&rt, &mut Summed { directory }, &wrapped, sum, sum);
    let short = [by(0, 615), votes[1], votes[2]];
    check_both(
        &rt,
        &mut Summed { directory },
        &short,
        None,
        certificate(7, 3695),
    );
    Ok(())
}

// The constant of a scheme is what its function answers.
fn check_constant<S: Scheme<Digest>>(rt: &impl Abort, scheme: &S, expected: bool) {
    assert_eq!(rt; S::BATCHABLE, expected);
    assert_eq!(rt; scheme.is_batchable(), expected);
}

#[test]
fn constants_are_answered(rt: HostRuntime) -> Result<(), Fail> {
    let directory = four()?;
    let listed = Listed { directory };
    let summed = Summed { directory };
    check_constant(&rt, &listed, false);
    check_constant(&rt, &summed, true);
    check_constant(
        &rt,
        &Withdrawn {
            below: listed,
            mask: 1,
        },
        false,
    );
    let below = Withdrawn {
        below: summed,
        mask: 1,
    };
    check_constant(&rt, &Withdrawn { below, mask: 2 }, true);
    Ok(())
}

// Participants 0 and 3 are withdrawn, each by its own layer.
#[test]
fn layers_over_layers(rt: HostRuntime) -> Result<(), Fail> {
    let directory = four()?;
    let votes = nullifies();
    let inner = Withdrawn {
        below: Listed { directory },
        mask: 1,
    };
    let mut pile = Withdrawn {
        below: inner,
        mask: 8,
    };
    let mut verdicts = [false; 4];
    let answers = ask_pile(&mut pile, NULLIFY, &votes, &mut verdicts);
    assert!(rt; !verdicts[0] && verdicts[1] && verdicts[2] && !verdicts[3]);
    assert!(rt; answers.optimistic.is_none() && answers.assembled.is_none());
    let inner = Withdrawn {
        below: Summed { directory },
        mask: 1 << 63,
    };
    let mut pile = Withdrawn {
        below: inner,
        mask: 8,
    };
    let answers = ask_pile(&mut pile, NULLIFY, &votes[0..3], &mut verdicts);
    assert!(rt; verdicts[0] && verdicts[2]);
    assert_eq!(rt; answers.optimistic, certificate(7, 3696));
    Ok(())
}

// Numbers and tags of the largest words and keys, worked out by hand: 2^64 - 1 is 3 modulo the prime.
#[test]
fn largest_numbers(rt: HostRuntime) -> Result<(), Fail> {
    let round = Rnd {
        epoch: u64::MAX,
        view: u64::MAX,
    };
    let payload = Digest {
        w1: u64::MAX,
        w2: u64::MAX,
        w3: u64::MAX,
        w4: u64::MAX,
    };
    let proposal = Proposal {
        round,
        parent: u64::MAX,
        payload,
    };
    assert_eq!(rt; number(Subject::Notarize(proposal)), 286);
    assert_eq!(rt; number::<Digest>(Subject::Nullify(round)), 38);
    assert_eq!(rt; number(Subject::Finalize(proposal)), 288);
    let directory = Directory::new(&[u64::MAX]).map_err(|_| Fail::new("one key is refused"))?;
    assert_eq!(rt; sign(&directory, Subject::Notarize(proposal), 1), None);
    assert_eq!(rt;
        sign(&directory, Subject::Notarize(proposal), 0),
        Some(by(0, 858))
    );
    assert!(rt; is_tagged(&directory, 286, by(0, 858)));
    assert!(rt; !is_tagged(&directory, 286, by(0, u64::MAX)));
    Ok(())
}
