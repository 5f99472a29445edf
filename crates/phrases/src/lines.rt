use crate::payloads::Spoken;
use crate::reading::{Tokens, number_of};
use crate::words::{CERTIFICATES, InWords, Names, VOTES};
use calls::call::Call;
use std::alloc::{AllocError, Global};
use values::types::{Attestation, Kind, Proposal, Rnd, Subject, Vote};

// A call in words.
pub fn call_words<P: Spoken>(heap: Global, call: &Call<P>) -> Result<String, AllocError> {
    InWords(call).to_string(heap)
}

// What a line says.
#[derive(Clone, Copy)]
pub(crate) enum Line<P> {
    // a call as it stands there
    Whole(Call<P>),
    // a call whose vote says good for its signature, which is 0 until it is found
    Good(Call<P>),
}

fn round_from(tokens: &mut Tokens<'_>) -> Option<Rnd> {
    Some(Rnd {
        epoch: tokens.after("epoch")?,
        view: tokens.after("view")?,
    })
}

fn proposal_from<P: Spoken>(tokens: &mut Tokens<'_>) -> Option<Proposal<P>> {
    Some(Proposal {
        round: round_from(tokens)?,
        parent: tokens.after("parent")?,
        payload: P::from_tokens(tokens)?,
    })
}

// A subject after its kind, which has one of these names.
fn subject_from<P: Spoken>(tokens: &mut Tokens<'_>, names: &Names) -> Option<Subject<P>> {
    match names.kind(tokens.next()?)? {
        Kind::Notarize => Some(Subject::Notarize(proposal_from(tokens)?)),
        Kind::Nullify => Some(Subject::Nullify(round_from(tokens)?)),
        Kind::Finalize => Some(Subject::Finalize(proposal_from(tokens)?)),
    }
}

// What a vote's words say, which `call` makes a call.
fn vote_from<P: Spoken, F: FnOnce(Vote<P>) -> Call<P>>(
    tokens: &mut Tokens<'_>,
    call: F,
) -> Option<Line<P>>
    requires { F.IsAlwaysCallable call }
{
    let signer = tokens.after("signer")?;
    let subject = subject_from(tokens, &VOTES)?;
    tokens.word("signature")?;
    let vote = |signature| Vote {
        subject,
        attestation: Attestation { signer, signature },
    };
    match tokens.next()? {
        "good" => Some(Line::Good(call(vote(0)))),
        word => Some(Line::Whole(call(vote(number_of(word)?)))),
    }
}

fn call_from<P: Spoken>(tokens: &mut Tokens<'_>) -> Option<Line<P>> {
    let call = match tokens.next()? {
        "network" => {
            tokens.word("vote")?;
            let key = tokens.after("key")?;
            return vote_from(tokens, |vote| Call::NetworkVote(key, vote));
        }
        "constructed" => {
            tokens.word("vote")?;
            return vote_from(tokens, |vote| Call::ConstructedVote(vote));
        }
        "certificate" => Call::Certificate(subject_from(tokens, &CERTIFICATES)?),
        "leader" => Call::Leader(tokens.number()?),
        "forward" => Call::Forward(tokens.after("by")?),
        "attempt" => Call::Attempt,
        "missing" => {
            tokens.word("voters")?;
            Call::MissingVoters(proposal_from(tokens)?)
        }
        _ => return None,
    };
    Some(Line::Whole(call))
}

// What a line says that is a number and then the call's words.
pub(crate) fn line_from<P: Spoken>(tokens: &mut Tokens<'_>) -> Option<Line<P>> {
    tokens.number::<u64>()?;
    let line = call_from(tokens)?;
    tokens.at_end().then_some(line)
}

// The call of a line that is a number and then the call's words.
pub fn line_call<P: Spoken>(tokens: &mut Tokens<'_>) -> Option<Call<P>> {
    match line_from(tokens)? {
        Line::Whole(call) | Line::Good(call) => Some(call),
    }
}
