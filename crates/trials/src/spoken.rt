use crate::samples::{ROUND, SIGNED};
use calls::call::{Call, same_call};
use phrases::lines::{call_words, line_call};
use phrases::payloads::Spoken;
use phrases::reading::Tokens;
use std::alloc::Global;
use std::process::Abort;
use std::test::Fail;
use values::payload::{BlockName, Digest};
use values::types::{Proposal, Subject, Vote};

fn proposal<P>(payload: P) -> Proposal<P> {
    Proposal {
        round: ROUND,
        parent: 6,
        payload,
    }
}

fn signed<P>(subject: Subject<P>) -> Vote<P> {
    Vote {
        subject,
        attestation: SIGNED,
    }
}

// The call is shown in these words, and these words after a number are read as the call.
fn check_words<P: Spoken>(
    rt: &impl Abort,
    heap: Global,
    call: Call<P>,
    words: &str,
) -> Result<(), Fail> {
    assert!(rt; call_words(heap, &call)?.as_str() == words);
    let mut line = String::from_str(heap, "12 ")?;
    line.push_str(words)?;
    let Some(other) = line_call::<P>(&mut Tokens::from(line.as_str())) else {
        return Err(Fail::new("the words are no call"));
    };
    assert!(rt; same_call(&call, &other));
    Ok(())
}

#[test]
fn votes_in_words(rt: HostRuntime) -> Result<(), Fail> {
    let heap = rt.alloc();
    let a = proposal(Digest {
        w1: 9,
        w2: 8,
        w3: 7,
        w4: 5,
    });
    let notarize = signed(Subject::Notarize(a));
    let finalize = signed(Subject::Finalize(a));
    let nullify: Vote<Digest> = signed(Subject::Nullify(ROUND));
    check_words(
        &rt,
        heap,
        Call::NetworkVote(11, notarize),
        "network vote key 11 signer 3 notarize epoch 1 view 7 parent 6 digest 9 8 7 5 signature 2618",
    )?;
    check_words(
        &rt,
        heap,
        Call::NetworkVote(11, nullify),
        "network vote key 11 signer 3 nullify epoch 1 view 7 signature 2618",
    )?;
    check_words(
        &rt,
        heap,
        Call::NetworkVote(11, finalize),
        "network vote key 11 signer 3 finalize epoch 1 view 7 parent 6 digest 9 8 7 5 signature 2618",
    )?;
    check_words(
        &rt,
        heap,
        Call::ConstructedVote(notarize),
        "constructed vote signer 3 notarize epoch 1 view 7 parent 6 digest 9 8 7 5 signature 2618",
    )?;
    check_words(
        &rt,
        heap,
        Call::ConstructedVote(nullify),
        "constructed vote signer 3 nullify epoch 1 view 7 signature 2618",
    )?;
    check_words(
        &rt,
        heap,
        Call::ConstructedVote(finalize),
        "constructed vote signer 3 finalize epoch 1 view 7 parent 6 digest 9 8 7 5 signature 2618",
    )
}

#[test]
fn other_calls_in_words(rt: HostRuntime) -> Result<(), Fail> {
    let heap = rt.alloc();
    let b = proposal(BlockName {
        sledge: 65535,
        second: 18446744073709551615,
        ordinal: 4294967295,
    });
    let nullify: Subject<BlockName> = Subject::Nullify(ROUND);
    check_words(
        &rt,
        heap,
        Call::Certificate(Subject::Notarize(b)),
        "certificate notarization epoch 1 view 7 parent 6 sledge 65535 second 18446744073709551615 ordinal 4294967295",
    )?;
    check_words(
        &rt,
        heap,
        Call::Certificate(nullify),
        "certificate nullification epoch 1 view 7",
    )?;
    check_words(
        &rt,
        heap,
        Call::Certificate(Subject::Finalize(b)),
        "certificate finalization epoch 1 view 7 parent 6 sledge 65535 second 18446744073709551615 ordinal 4294967295",
    )?;
    check_words::<BlockName>(&rt, heap, Call::Leader(4294967295), "leader 4294967295")?;
    check_words::<BlockName>(&rt, heap, Call::Forward(2), "forward by 2")?;
    check_words::<BlockName>(&rt, heap, Call::Attempt, "attempt")?;
    check_words(
        &rt,
        heap,
        Call::MissingVoters(b),
        "missing voters epoch 1 view 7 parent 6 sledge 65535 second 18446744073709551615 ordinal 4294967295",
    )
}

fn is_call(line: &str) -> bool {
    line_call::<BlockName>(&mut Tokens::from(line)).is_some()
}

#[test]
fn lines_that_are_no_calls(rt: HostRuntime) {
    assert!(rt; is_call(" 0  leader\t1 "));
    for line in [
        "",
        "0",
        "attempt",
        "0attempt",
        "0 attempt now",
        "0 leader",
        "0 leader -1",
        "0 leader +1",
        "0 leader 4294967296",
        "18446744073709551616 attempt",
        "0 forward 1",
        "0 certificate notarize epoch 1 view 7 parent 6 sledge 1 second 2 ordinal 3",
        "0 certificate notarization epoch 1 view 7 parent 6 digest 1 2 3 4",
        "0 certificate notarization epoch 1 view 7 parent 6 sledge 65536 second 2 ordinal 3",
        "0 certificate nullification epoch 18446744073709551616 view 7",
        "0 refused 12: a byte that the call does not use is not zero",
    ] {
        assert!(rt; !is_call(line));
    }
}
